// The traces of `traces.bin`: the records are previewed and taken, and after each the reports are held to the stored
// ones.
use crate::ask::all_asked;
use crate::preview::taken_after_preview;
use crate::read;
use crate::read::Stop;
use judge::state::Judge;
use record::limits::RECORD_SIZE;
use record::number::u64_at;
use rows::pass;
use rules::{CHECKS, Evidence, Opening, Report, Verdict};
use std::io::Read;

// No trace has more records.
const MOST: usize = 14;

// The bytes of a log and the words of a work area for them.
const LOG: usize = RECORD_SIZE * MOST;

const WORK: usize = Judge::WORDS * MOST;

// A trace up to some record: the judge, the stored reports, and whether everything came out as stored.
// Where it did not, the judge still takes the rest.
#[derive(Clone, Copy)]
struct Run {
    judge: Judge,
    reports: [Report; CHECKS],
    right: bool,
}

fn read_evidence<R: Read>(file: &mut R) -> Option<Evidence> {
    Some(Evidence {
        e0: read::eight(file)?,
        e1: read::eight(file)?,
        e2: read::eight(file)?,
        e3: read::eight(file)?,
        e4: read::eight(file)?,
    })
}

// A stored report: kind, position, evidence. A stored 0 is no kind, and not a pass either: no judge's report is equal to it.
// Kind and position are read at once: each read is a call of the system.
fn read_report<R: Read>(file: &mut R) -> Option<Report> {
    let [kind, low, high]: [u8; 3] = read::bytes(file)?;
    Some(Report {
        verdict: Verdict::Faulted(kind),
        at: u64::from(u16::from_le_bytes([low, high])),
        evidence: read_evidence(file)?,
    })
}

// The reports after a record: a bit for each that changed, and those. The others are as before.
fn next_reports<R: Read>(file: &mut R, old: [Report; CHECKS]) -> Option<[Report; CHECKS]> {
    let changed = read::two(file)?;
    let mut reports = old;
    for (k, report) in reports.iter_mut().enumerate() {
        if changed >> k & 1 == 1 {
            *report = read_report(file)?;
        }
    }
    Some(reports)
}

// Whether a judge's reports, which it numbers from 1 on, are those given.
fn has_reports(judge: Judge, reports: &[Report; CHECKS]) -> bool {
    reports.iter().enumerate().all(|(k, report)| {
        let reported = judge.report(k + 1);
        reported.outcome.is_ok() && reported.report == *report
    })
}

// One more record, and the reports after it. These are read first, since the preview of the record has to show them.
fn after_record<R: Read>(
    file: &mut R,
    run: Run,
    log: &mut [u8],
    work: &mut [u64],
    rec: &[u8; RECORD_SIZE],
) -> Option<Run> {
    let reports = next_reports(file, run.reports)?;
    let taken = taken_after_preview(run.judge, log, work, rec, &run.reports, &reports);
    Some(Run {
        judge: taken.judge,
        reports,
        right: run.right && taken.right && has_reports(taken.judge, &reports),
    })
}

// All records of a trace, from a judge that has taken none and whose reports are passes.
fn after_records<R: Read>(
    file: &mut R,
    judge: Judge,
    log: &mut [u8],
    work: &mut [u64],
    records: &[u8],
) -> Option<Run> {
    let reports = [pass(); CHECKS];
    let mut run = Run {
        judge,
        reports,
        right: has_reports(judge, &reports),
    };
    let (records, _) = records.as_chunks::<RECORD_SIZE>();
    for rec in records {
        run = after_record(file, run, log, work, rec)?;
    }
    Some(run)
}

// Whether a trace of this tenant and of so many records comes out as stored: they are read, a judge is opened, takes them, and is asked.
fn is_right<R: Read>(file: &mut R, tenant: u64, count: u16) -> Option<bool> {
    // Memory is fixed in this program: these three are for the longest trace.
    let mut buffer = [0u8; LOG];
    let records = read::front(file, &mut buffer, RECORD_SIZE * usize::from(count))?;
    let mut log = [0u8; LOG];
    let mut work = [0u64; WORK];
    let opened = Judge::open(Opening { tenant }, &log, &mut work);
    let run = after_records(file, opened.judge, &mut log, &mut work, records)?;
    let answered = all_asked(file, run.judge, &log, &work)?;
    Some(opened.outcome.is_ok() && run.right && answered)
}

// The next trace of the file: whether it came out right. Tenant and count are read at once: each read is a call of the system.
pub fn next_trace<R: Read>(file: &mut R) -> Result<bool, Stop> {
    let head: [u8; 10] = read::head(file)?;
    let tenant = u64_at(&head, 0);
    let count = u16::from_le_bytes([head[8], head[9]]);
    is_right(file, tenant, count).ok_or(Stop::Broken)
}
