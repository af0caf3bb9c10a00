// Prints the sheet of the trace on standard input, judged with capacity 96 and tenant 0.
#![tactic(auto)]

mod input;
mod output;

ghost use Rattle.std.specs.Prelude.{◌≡◌};
ghost use Rattle.sheet_text.specs.Sheets.{printed, printed_length};
ghost use Rattle.sheet.specs.Printing.{sheet_of, Prints};

use crate::input::read_input;
use crate::output::{Stopped, write_output};
use judge::state::{Judge, number_of};
use judge::trace::Traced;
use rules::Opening;
use sheet_text::{SHEET_SIZE, sheet};
use std::env::FillError;
use std::rt::Env;

const TENANT: u64 = 0;

const CAPACITY: usize = 96;

// The bytes of a log and the words of a work area of that capacity.
const LOG: usize = 368 * CAPACITY;

const WORK: usize = 32 * CAPACITY;

// The bytes of one record more. That one is refused whatever it is, so that no byte after it matters.
const TRACE: usize = 368 * (CAPACITY + 1);

// Writes the sheet of what a trace gave to the front of the buffer.
// The two numbers printed are indexes, which have no `From` into a word: `as` is proved to lose nothing.
#[tactic(auto, unfolding(crate::specs::Printing::sheet_of))]
fn sheet_of(traced: Traced, out: &mut [u8]) -> usize
    ensures value { result ≡ printed_length (sheet_of traced) out.old }
    ensures out_after { out.new ≡ printed (sheet_of traced) out.old }
{
    sheet(
        traced.judge.reports,
        traced.judge.count as u64,
        number_of(traced.outcome),
        traced.at as u64,
        out,
    )
}

// Judges a trace and writes its sheet to the front of the buffer.
fn judged(trace: &[u8], out: &mut [u8]) -> usize
    ensures { Prints trace.now out.old out.new result }
{
    // Memory is fixed in this program: both are for its capacity.
    let mut log = [0u8; LOG];
    let mut work = [0u64; WORK];
    let opening = Opening { tenant: TENANT };
    let traced = Judge::judge_trace(opening, &mut log, &mut work, trace);
    sheet_of(traced, out)
}

// Says on standard error that the sheet did not reach standard output, or that only a part of it did. Where standard error
// takes nothing either, nobody is left to tell.
fn say_stopped(rt: &impl Eprint, stopped: Stopped) {
    let error = stopped.error;
    let printed = if stopped.done == 0 {
        "no line"
    } else {
        "only a part"
    };
    let _ = eprintln!(rt; "sheet: {printed} printed, writing to standard output failed: {error}");
}

// Prints the sheet of a trace.
#[tactic(auto, using(sheet_text::proofs::Printed::printed_within))]
fn print_sheet(rt: HostRuntime, trace: &[u8]) {
    // Memory is fixed in this program: no sheet is longer.
    let mut out = [0u8; SHEET_SIZE];
    let end = judged(trace, &mut out);
    if let Err(stopped) = write_output(&mut rt.stdout(), &out[..end]) {
        say_stopped(&rt, stopped);
    }
}

// Whether an argument was given. One that is longer than the buffer was. One byte is enough, and fixed: what the argument says is not asked.
fn has_argument(rt: &impl Env) -> bool {
    let mut start = [0u8; 1];
    !matches!(rt.arg(1, &mut start), Err(FillError::NotPresent))
}

// Reads until the input ends or 97 records are there. Where a read failed there is no sheet: what was read may be any
// beginning of the trace, and its passes would say nothing of the rest.
fn main(rt: HostRuntime) {
    if has_argument(&rt) {
        let _ = eprintln!(rt; "usage: sheet < trace");
        return;
    }
    // Memory is fixed in this program: so much of a trace and no more.
    let mut trace = [0u8; TRACE];
    match read_input(&mut rt.stdin(), &mut trace) {
        Ok(n) => print_sheet(rt, &trace[..n]),
        Err(e) => {
            let _ = eprintln!(rt; "sheet: no verdict, reading standard input failed: {e}");
        }
    }
}
