// Reports as words: seven for each check, in printing order. The judge's core writes a fault there, and a host keeps them between
// calls.
#![tactic(auto)]

ghost use Rattle.std.specs.Prelude.{◌≡◌, ◌+◌, ◌*◌, ◌≤◌, ◌<◌, length, get_or};
ghost use Rattle.std.proofs.lemmas.List.Edits.{sets};
ghost use Rattle.rules.specs.Reports.{passed};
ghost use Rattle.rules.specs.Checks.{check_count};
ghost use Rattle.rows.specs.Rows.{rows_size, kind_word, report_words, verdict_in, report_in, reports_in, KindsFit, kinds_fit, WrittenIn, EntersIn};

use rules::{CHECKS, Evidence, Fault, Report, Verdict};
use std::array;

// The words of a report: kind, position, five evidence numbers.
pub const REPORT_WORDS: usize = 7;

// The words of all reports.
pub const ROWS: usize = REPORT_WORDS * CHECKS;

// A pass.
pub fn pass() -> Report
    ensures { result ≡ passed }
{
    Report {
        verdict: Verdict::Pass,
        at: 0,
        evidence: Evidence {
            e0: 0,
            e1: 0,
            e2: 0,
            e3: 0,
            e4: 0,
        },
    }
}

// The verdict that a word stands for: 0 is a pass. No `From` can say it: a word above 255 stands for none.
fn verdict_of(word: u64) -> Verdict
    requires { word ≤ 255 }
    ensures { result ≡ verdict_in word }
{
    match word {
        // Kinds of faults begin at 1: a row that begins with 0 is a pass, docs/DECISIONS.md 37.
        0 => Verdict::Pass,
        // A byte, as is required: `as` loses nothing.
        kind => Verdict::Faulted(kind as u8),
    }
}

// The report whose seven words begin at a place.
#[tactic(auto, unfolding(crate::specs::Rows::report_in))]
pub fn read_report(words: &[u64], at: usize) -> Report
    requires { (at + 7 ≤ length words.now) × (get_or words.now at 0 ≤ 255) }
    ensures { result ≡ report_in words.now at }
{
    Report {
        verdict: verdict_of(words[at]),
        at: words[at + 1],
        evidence: Evidence {
            e0: words[at + 2],
            e1: words[at + 3],
            e2: words[at + 4],
            e3: words[at + 5],
            e4: words[at + 6],
        },
    }
}

// Whether each report's kind, from a place on, is a byte.
pub fn kinds_fit(words: &[u64], at: usize) -> bool
    requires { at + rows_size ≤ length words.now }
    ensures { result ≡ kinds_fit words.now at }
{
    (0..CHECKS).all(|k| words[at + REPORT_WORDS * k] <= 255)
}

// The reports whose words begin at a place.
pub fn read_rows(words: &[u64], at: usize) -> [Report; CHECKS]
    requires { (at + rows_size ≤ length words.now) × KindsFit words.now at }
    ensures { result ≡ reports_in words.now at }
{
    array::from_fn(|k| read_report(words, at + REPORT_WORDS * k))
}

// A verdict's word, which is a byte. A `From` would stand in `rules`, where `Verdict` is and nothing is known of words.
fn kind_word(verdict: Verdict) -> u64
    ensures { (result ≡ kind_word verdict) × (kind_word verdict ≤ 255) }
{
    match verdict {
        Verdict::Pass => 0,
        Verdict::Faulted(kind) => u64::from(kind),
    }
}

// Writes a report's seven words from a place on.
pub fn write_report(out: &mut [u64], at: usize, report: Report)
    requires { at + 7 ≤ length out.old }
    ensures { (out.new ≡ sets out.old at (report_words report)) × (kind_word report.verdict ≤ 255) }
{
    let Evidence { e0, e1, e2, e3, e4 } = report.evidence;
    let words = [kind_word(report.verdict), report.at, e0, e1, e2, e3, e4];
    out[at..at + REPORT_WORDS].copy_from_slice(&words);
}

// Writes the words of all reports from a place on; that they are as many as the checks, with bytes as kinds, is said for the callers.
pub fn write_rows(out: &mut [u64], at: usize, reports: [Report; CHECKS])
    requires { at + rows_size ≤ length out.old }
    ensures { WrittenIn out.old at reports out.new }
{
    for (k, report) in reports.iter().enumerate() {
        write_report(out, at + REPORT_WORDS * k, *report);
    }
}

// Enters what a check says of the record at a position into the check's row, which is a pass's: a fault's seven words, or nothing.
pub fn enter(rows: &mut [u64], k: usize, c: Option<Fault>, position: u64)
    requires { (length rows.old ≡ rows_size) × (k < check_count) }
    ensures { EntersIn rows.old k c position rows.new }
{
    if let Some(fault) = c {
        let report = Report {
            verdict: Verdict::Faulted(fault.kind),
            at: position,
            evidence: fault.evidence,
        };
        write_report(rows, REPORT_WORDS * k, report);
    }
}
