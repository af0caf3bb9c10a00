// Previewing a record, and committing it by its ticket.
ghost use Rattle.std.specs.Prelude.{◌≡◌, ◌≤◌, IfOk, length};
ghost use Rattle.decision.specs.Refusals.{outcome_number};
ghost use Rattle.rows.specs.Rows.{rows_size};
ghost use Rattle.state_words.specs.StateWords.{IsState};
ghost use Rattle.petalchurn.specs.Previews.{ShowsWords, PreviewsWords, CommitsWords};

use crate::calls::take_into;
use decision::refusal::Refusal;
use decision::suits;
use history::chain::clear;
use intake::preview::preview;
use record::Record;
use rows::ROWS;
use state_words::{CAPACITY_WORD, COUNT_WORD, EVENTS_WORD, TENANT_WORD, copy_rows, is_state};
use ticket_bytes::{COUNT_SIZE, TICKET_SIZE, clear_ticket, is_current, write_ticket};

// Writes the reports that a state's judge would have with the record, or the present ones where it is refused, passes under 5.
fn show<'a>(
    state: &[u64],
    log: &[u8],
    work: &[u64],
    bytes: &'a [u8],
    reports: &mut [u64],
) -> Result<&'a Record, Refusal>
    requires { IsState state.now × (rows_size ≤ length reports.old) }
    ensures shows { ShowsWords state.now log.now work.now bytes.now reports.old (outcome_number result) reports.new }
    ensures whole { IfOk result (λ rec. rec.now ≡ bytes.now) }
{
    copy_rows(state, reports);
    // C keeps both as words, which have no `From` into an index: `as` is proved to lose nothing.
    let cap = state[CAPACITY_WORD] as usize;
    let n = state[COUNT_WORD] as usize;
    let events = state[EVENTS_WORD];
    let tenant = state[TENANT_WORD];
    let rows = &mut reports[0..ROWS];
    match preview(log, work, rows, n, events, cap, tenant, bytes) {
        Ok(taken) => Ok(taken),
        Err(refusal) => {
            if refusal == Refusal::Judge {
                clear(&mut reports[0..ROWS]);
            }
            Err(refusal)
        }
    }
}

// Shows what a push of a record would do, and gives a ticket to commit it with: state, log and work area are lent for reading only. Both
// lists are written also where the record is refused, so their room is tested first. A refusal is a number, since C is given one.
pub fn petalchurn_preview(
    state: &[u64],
    log: &[u8],
    work: &[u64],
    rec: &[u8],
    reports: &mut [u64],
    ticket: &mut [u8],
) -> u64
    ensures { PreviewsWords state.now log.now work.now rec.now reports.old ticket.old result reports.new ticket.new }
{
    if (reports.len() < ROWS) | (ticket.len() < TICKET_SIZE) {
        return Refusal::Output.number();
    }
    if !is_state(state) {
        clear(&mut reports[0..ROWS]);
        clear_ticket(ticket);
        return Refusal::Judge.number();
    }
    match show(state, log, work, rec, reports) {
        Ok(taken) => {
            write_ticket(ticket, state[COUNT_WORD], taken);
            0
        }
        Err(refusal) => {
            clear_ticket(ticket);
            refusal.number()
        }
    }
}

// Pushes a ticket's record, unless its count is not the judge's. Nothing rests on where the ticket came from: all is tested anew.
// A refusal is a number, since C is given one.
pub fn petalchurn_commit(state: &mut [u64], log: &mut [u8], work: &mut [u64], ticket: &[u8]) -> u64
    ensures { CommitsWords state.old log.old work.old ticket.now result state.new log.new work.new }
{
    if !is_state(state) {
        return Refusal::Judge.number();
    }
    // C keeps capacity and count as words, which have no `From` into an index: `as` is proved to lose nothing.
    let cap = state[CAPACITY_WORD] as usize;
    let n = state[COUNT_WORD];
    if !suits(cap, n as usize, log.len(), work.len()) {
        return Refusal::Judge.number();
    }
    if !is_current(ticket, n) {
        return Refusal::Ticket.number();
    }
    take_into(state, log, work, &ticket[COUNT_SIZE..])
}
