// The reports, one at a time.
ghost use Rattle.std.specs.Prelude.{◌≡◌};
ghost use Rattle.judge.specs.Answers.{report_no, ReportedBy};

use crate::state::Judge;
use decision::refusal::Refusal;
use rows::pass;
use rules::{CHECKS, Report};

// What a call for a report gives: its refusal, the judge as it was given, and the report. The interface gives a report in any case: a pass
// where the call is refused.
#[derive(Clone, Copy)]
pub struct Reported {
    pub outcome: Result<(), Refusal>,
    pub judge: Judge,
    pub report: Report,
}

// The report with a number from 1 on, in printing order; a number that is no check's has a pass.
fn report_no(reports: [Report; CHECKS], k: usize) -> Report
    ensures { result ≡ report_no reports k }
{
    if 1 <= k && k <= CHECKS {
        reports[k - 1]
    } else {
        pass()
    }
}

impl Judge {
    // One of the reports, by its number in printing order.
    pub fn report(self, k: usize) -> Reported
        ensures { ReportedBy self k result }
    {
        let fit = self.fits();
        let judge = fit.judge;
        if !fit.holds {
            return Reported {
                outcome: Err(Refusal::Judge),
                judge,
                report: pass(),
            };
        }
        let reports = judge.reports;
        let report = report_no(reports, k);
        Reported {
            outcome: Ok(()),
            judge,
            report,
        }
    }
}
