// The printed sheet of a trace: its text, written to the front of a buffer.
#![tactic(auto)]

mod line;
mod name;
mod text;

ghost use Rattle.std.specs.Prelude.{◌≡◌};
ghost use Rattle.sheet_text.specs.Sheets.{sheet_text, printed, printed_length};

use crate::text::Text;
use rules::{CHECKS, Report};

// The bytes that hold every sheet.
pub const SHEET_SIZE: usize = 2048;

// Writes the sheet to the front of the buffer and returns its length. A buffer shorter than every sheet may need gets
// nothing.
pub fn sheet(
    reports: [Report; CHECKS],
    records: u64,
    refusal: u64,
    at: u64,
    out: &mut [u8],
) -> usize
    ensures value { result ≡ printed_length (sheet_text reports records refusal at) out.old }
    ensures out_after { out.new ≡ printed (sheet_text reports records refusal at) out.old }
{
    if out.len() < SHEET_SIZE {
        return 0;
    }
    let mut text = Text { out, end: 0 };
    text.push_lines(reports);
    text.push_last(records, refusal, at);
    text.end
}
