// Previewing a record: what a push of it would do, shown and not done.
ghost use Rattle.std.specs.Prelude.{◌≡◌};
ghost use Rattle.decision.specs.Refusals.{refusal_number};
ghost use Rattle.judge.specs.Previews.{refused_reports, PreviewedBy};

use crate::state::Judge;
use crate::ticket::{Ticket, no_ticket, ticket_of};
use decision::refusal::Refusal;
use intake::preview::preview;
use rows::{ROWS, pass, read_rows, write_rows};
use rules::{CHECKS, Report};

// What a preview gives: whether a push would be refused, the judge as it was given, the reports that it would have, and a ticket
// to commit the record with. The interface gives reports and ticket in any case: where a push would be refused, a ticket of zeros.
#[derive(Clone, Copy)]
pub struct Previewed {
    pub outcome: Result<(), Refusal>,
    pub judge: Judge,
    pub reports: [Report; CHECKS],
    pub ticket: Ticket,
}

// The reports under a refusal: the present ones, and passes under 5.
fn refused_reports(reports: [Report; CHECKS], refusal: Refusal) -> [Report; CHECKS]
    ensures { result ≡ refused_reports reports (refusal_number refusal) }
{
    match refusal {
        Refusal::Judge => [pass(); CHECKS],
        _ => reports,
    }
}

impl Judge {
    // Shows what a push of a record would do. Log and work area are lent for reading only, and the judge is handed back.
    pub fn preview(self, log: &[u8], work: &[u64], rec: &[u8]) -> Previewed
        ensures { PreviewedBy self log.now work.now rec.now result }
    {
        let n = self.count;
        let cap = self.capacity;
        let opening = self.opening;
        let reports = self.reports;
        // An array: the library has no heap.
        let mut rows = [0u64; ROWS];
        write_rows(&mut rows, 0, reports);
        match preview(
            log,
            work,
            &mut rows,
            n,
            self.events,
            cap,
            opening.tenant,
            rec,
        ) {
            Err(refusal) => Previewed {
                outcome: Err(refusal),
                judge: self,
                reports: refused_reports(reports, refusal),
                ticket: no_ticket(),
            },
            Ok(whole) => {
                let shown = read_rows(&rows, 0);
                Previewed {
                    outcome: Ok(()),
                    judge: self,
                    reports: shown,
                    ticket: ticket_of(n, whole),
                }
            }
        }
    }
}
