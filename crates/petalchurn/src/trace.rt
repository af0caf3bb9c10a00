// A whole trace in one call.
ghost use Rattle.std.specs.Prelude.{◌≡◌, cond, ◌++◌, ◌≤◌, length, drop, eqb};
ghost use Rattle.decision.specs.Refusals.{outcome_number};
ghost use Rattle.petalchurn.specs.Calls.{trace_size, trace_words, TracesWords};

use decision::refusal::Refusal;
use judge::state::{Judge, number_of};
use judge::trace::Traced;
use rows::{ROWS, write_rows};
use rules::Opening;

// The words of a whole trace's answer: how many records were taken, the refused one's number, and the reports.
pub const TRACE_WORDS: usize = 2 + ROWS;

// The number of the refused record: 0 where nothing is refused.
// It is a word for C, into which an index has no `From`.
fn refused_at(outcome: Result<(), Refusal>, at: usize) -> u64
    ensures { result ≡ cond (eqb (outcome_number outcome) 0) 0 at }
{
    match outcome {
        Ok(()) => 0,
        Err(_) => at as u64,
    }
}

// Writes what a trace came to at the front of a list, and gives the refusal's number.
fn write_trace(out: &mut [u64], traced: Traced) -> u64
    requires { trace_size ≤ length out.old }
    ensures { (result ≡ outcome_number traced.outcome) × (out.new ≡ trace_words traced ++ drop trace_size out.old) }
{
    let judge = traced.judge;
    let reports = judge.reports;
    // C is given words, into which an index has no `From`.
    out[0] = judge.count as u64;
    out[1] = refused_at(traced.outcome, traced.at);
    write_rows(out, 2, reports);
    number_of(traced.outcome)
}

// Opens a judge, pushes a trace's records up to the first refusal, and writes what it came to. A refusal is a number, since C is given one.
pub fn petalchurn_trace(
    tenant: u64,
    log: &mut [u8],
    work: &mut [u64],
    trace: &[u8],
    out: &mut [u64],
) -> u64
    ensures { TracesWords (record { tenant = tenant }) log.old work.old trace.now out.old result log.new work.new out.new }
{
    if out.len() < TRACE_WORDS {
        return Refusal::Output.number();
    }
    let opening = Opening { tenant: tenant };
    let traced = Judge::judge_trace(opening, log, work, trace);
    write_trace(out, traced)
}
