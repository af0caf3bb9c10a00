// Pushing a record into a judge by value: its reports as rows, the record taken, and the rows as reports again.
ghost use Rattle.judge.specs.Pushes.{PushedBy};

use crate::state::Judge;
use decision::refusal::Refusal;
use events::event_after;
use intake::take::take;
use rows::{ROWS, read_rows, write_rows};

// What a push gives: whether it was refused, and the judge.
#[derive(Clone, Copy)]
pub struct Pushed {
    pub outcome: Result<(), Refusal>,
    pub judge: Judge,
}

impl Judge {
    // Takes a record, or says why not: then everything is as it stood.
    pub fn push(self, log: &mut [u8], work: &mut [u64], rec: &[u8]) -> Pushed
        ensures { PushedBy self log.old work.old rec.now result log.new work.new }
    {
        let n = self.count;
        let events = self.events;
        let cap = self.capacity;
        let opening = self.opening;
        let reports = self.reports;
        // An array: the library has no heap.
        let mut rows = [0u64; ROWS];
        write_rows(&mut rows, 0, reports);
        match take(log, work, &mut rows, n, events, cap, opening.tenant, rec) {
            Err(refusal) => Pushed {
                outcome: Err(refusal),
                judge: self,
            },
            Ok(taken) => {
                let next = read_rows(&rows, 0);
                Pushed {
                    outcome: Ok(()),
                    judge: Judge {
                        capacity: cap,
                        count: n + 1,
                        events: event_after(events, taken),
                        opening,
                        reports: next,
                    },
                }
            }
        }
    }
}
