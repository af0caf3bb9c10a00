// Opening a judge, pushing a record, and one of the reports.
ghost use Rattle.std.specs.Prelude.{◌≡◌, true};
ghost use Rattle.state_words.specs.StateWords.{is_state};
ghost use Rattle.petalchurn.specs.Calls.{OpensWords, PushesWords, ReportsWords};

use decision::refusal::Refusal;
use events::event_after;
use intake::take::take;
use judge::state::{Judge, number_of};
use rows::{REPORT_WORDS, write_report};
use rules::Opening;
use state_words::{
    CAPACITY_WORD, COUNT_WORD, EVENTS_WORD, HEADER, STATE_WORDS, TENANT_WORD, is_state, read_state,
    write_state,
};

// Opens a judge over a log and a work area, and writes its words. A refusal is a number, since C is given one.
pub fn petalchurn_open(tenant: u64, log: &[u8], work: &mut [u64], state: &mut [u64]) -> u64
    ensures { OpensWords (record { tenant = tenant }) log.now work.old state.old result work.new state.new }
{
    if state.len() != STATE_WORDS {
        return Refusal::Output.number();
    }
    let opening = Opening { tenant: tenant };
    let opened = Judge::open(opening, log, work);
    let outcome = opened.outcome;
    write_state(state, opened.judge);
    number_of(outcome)
}

// Takes a record on the words of a judge, or says why not: then everything is as it stood. A check's row, where it has a new fault, the
// count and the events are written, and no other word of the state. It is small enough to become a part of the two calls that take.
// C keeps the capacity and the count as words; Rust has no `From` between those and indexes, and `as` is proved to lose nothing.
pub(crate) fn take_into(state: &mut [u64], log: &mut [u8], work: &mut [u64], rec: &[u8]) -> u64
    requires { is_state state.old ≡ true }
    ensures { PushesWords state.old log.old work.old rec.now result state.new log.new work.new }
{
    let cap = state[CAPACITY_WORD] as usize;
    let n = state[COUNT_WORD] as usize;
    let events = state[EVENTS_WORD];
    let tenant = state[TENANT_WORD];
    let rows = &mut state[HEADER..STATE_WORDS];
    match take(log, work, rows, n, events, cap, tenant, rec) {
        Ok(taken) => {
            state[COUNT_WORD] = (n + 1) as u64;
            state[EVENTS_WORD] = event_after(events, taken);
            0
        }
        Err(refusal) => refusal.number(),
    }
}

// Takes a record, or says why not: then everything is as it stood. A refusal is a number, since C is given one.
pub fn petalchurn_push(state: &mut [u64], log: &mut [u8], work: &mut [u64], rec: &[u8]) -> u64
    ensures { PushesWords state.old log.old work.old rec.now result state.new log.new work.new }
{
    if !is_state(state) {
        return Refusal::Judge.number();
    }
    take_into(state, log, work, rec)
}

// One of the reports, by its number in printing order. A refusal is a number, 0 for none, since C is given one.
pub fn petalchurn_report(state: &[u64], k: u64, out: &mut [u64]) -> u64
    ensures { ReportsWords state.now k out.old result out.new }
{
    if !is_state(state) {
        return Refusal::Judge.number();
    }
    let judge = read_state(state);
    // C gives the number as a word, which has no `From` into an index, but as many bits.
    let reported = judge.report(k as usize);
    if let Err(refusal) = reported.outcome {
        return refusal.number();
    }
    if out.len() < REPORT_WORDS {
        return Refusal::Output.number();
    }
    write_report(out, 0, reported.report);
    0
}
