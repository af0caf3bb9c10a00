// The lines of the sheet. The room that each asks for is that of numbers of 20 digits.
ghost use Rattle.std.specs.Prelude.{◌+◌, ◌≤◌, ◌<◌, length};
ghost use Rattle.rules.specs.Checks.{check_count};
ghost use Rattle.sheet_text.specs.Sheets.{name_at, evidence_text, pass_line, fault_line, line, line_size, lines, lines_size, refused_text, last_line};
ghost use Rattle.sheet_text.specs.Appends.{Appended};

use crate::text::Text;
use rules::{CHECKS, Evidence, Report, Verdict};

impl Text<'_> {
    // The five numbers, each after a space.
    fn push_evidence(&mut self, e: Evidence)
        requires { self.old.end + 105 ≤ length self.old.out.now }
        ensures { Appended 105 self.old self.new (evidence_text e) }
    {
        self.push_number(e.e0);
        self.push_number(e.e1);
        self.push_number(e.e2);
        self.push_number(e.e3);
        self.push_number(e.e4);
    }

    // The line of a check without a fault. That it is built like `push_number` is chance: that one writes a number, which is no line.
    fn push_pass(&mut self, check: usize)
        requires { (self.old.end + line_size ≤ length self.old.out.now) × (check < check_count) }
        ensures { Appended line_size self.old self.new (pass_line (name_at check)) }
    {
        self.push_name(check);
        self.push(b" pass\n");
    }

    // The line of a check's first fault.
    fn push_fault(&mut self, check: usize, kind: u64, position: u64, e: Evidence)
        requires { (self.old.end + line_size ≤ length self.old.out.now) × (check < check_count) }
        ensures { Appended line_size self.old self.new (fault_line (name_at check) kind position e) }
    {
        self.push_name(check);
        self.push(b" fault");
        self.push_number(kind);
        self.push(b" at");
        self.push_number(position);
        self.push(b":");
        self.push_evidence(e);
        self.push(b"\n");
    }

    // The line of the check at a place of the table: its name, and what it reports.
    fn push_report(&mut self, check: usize, report: Report)
        requires { (self.old.end + line_size ≤ length self.old.out.now) × (check < check_count) }
        ensures { Appended line_size self.old self.new (line (name_at check) report) }
    {
        match report.verdict {
            Verdict::Pass => self.push_pass(check),
            Verdict::Faulted(kind) => {
                self.push_fault(check, u64::from(kind), report.at, report.evidence)
            }
        }
    }

    // The lines of the checks, in printing order.
    pub(crate) fn push_lines(&mut self, reports: [Report; CHECKS])
        requires { self.old.end + lines_size ≤ length self.old.out.now }
        ensures { Appended lines_size self.old self.new (lines reports) }
    {
        for (k, report) in reports.iter().enumerate() {
            self.push_report(k, *report);
        }
    }

    // What the last line says of a refusal: nothing where there was none.
    // The refusal comes as the number that the line prints, since the sheet stands on no crate that has refusals: 0 is the sheet's "none".
    fn push_refused(&mut self, refusal: u64, position: u64)
        requires { self.old.end + 53 ≤ length self.old.out.now }
        ensures { Appended 53 self.old self.new (refused_text refusal position) }
    {
        if refusal != 0 {
            self.push(b" refused");
            self.push_number(refusal);
            self.push(b" at");
            self.push_number(position);
        }
    }

    // The last line: the records taken, and the refusal.
    pub(crate) fn push_last(&mut self, records: u64, refusal: u64, position: u64)
        requires { self.old.end + 82 ≤ length self.old.out.now }
        ensures { Appended 82 self.old self.new (last_line records refusal position) }
    {
        self.push(b"records");
        self.push_number(records);
        self.push_refused(refusal, position);
        self.push(b"\n");
    }
}
