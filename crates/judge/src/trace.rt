// A whole trace: opened, and then its records taken up to the first refusal.
ghost use Rattle.std.specs.Prelude.{◌≡◌, ◌+◌, ◌<◌, ◌≤◌, length, replicate};
ghost use Rattle.rows.specs.Rows.{rows_size};
ghost use Rattle.decision.specs.Refusals.{outcome_number};
ghost use Rattle.judge.specs.Pushes.{state_of};
ghost use Rattle.judge.specs.Traces.{Feeds, judge_by, FedBy, TracedBy};

use crate::state::Judge;
use decision::refusal::Refusal;
use events::event_after;
use intake::keep::keep;
use intake::preview::preview;
use rows::{ROWS, read_rows};
use rules::Opening;

// What a whole trace gives: the first refusal, the number of the record that it came at, and the judge.
// `at` says where in any case: without a refusal it is the number of the last record taken, 0 for none.
#[derive(Clone, Copy)]
pub struct Traced {
    pub outcome: Result<(), Refusal>,
    pub at: usize,
    pub judge: Judge,
}

// What a trace's records came to: the first refusal and the number of its record, how many were taken, and of how many events.
// `at` is as in `Traced`.
#[derive(Clone, Copy)]
struct Fed {
    outcome: Result<(), Refusal>,
    at: usize,
    count: usize,
    events: u64,
}

// Takes a trace's records up to the first refusal, by numbers and slices alone: so they go across calls, docs/DECISIONS.md 37.
fn feed(
    log: &mut [u8],
    work: &mut [u64],
    rows: &mut [u64],
    cap: usize,
    tenant: u64,
    trace: &[u8],
) -> Fed
    requires { length rows.old ≡ rows_size }
    ensures { FedBy (record { tenant = tenant }) cap log.old work.old rows.old trace.now (outcome_number result.outcome) result.at result.count result.events log.new work.new rows.new }
{
    // No `enumerate`: the number of records taken is also the answer after the last, beside that of the events.
    let mut n: usize = 0;
    let mut events: u64 = 0;
    for bytes in trace.chunks(Judge::RECORD_SIZE) {
        let taken = match preview(log, work, rows, n, events, cap, tenant, bytes) {
            Ok(taken) => taken,
            Err(refusal) => {
                return Fed {
                    outcome: Err(refusal),
                    at: n + 1,
                    count: n,
                    events,
                };
            }
        };
        keep(log, work, n, cap, taken);
        events = event_after(events, taken);
        n += 1;
    }
    Fed {
        outcome: Ok(()),
        at: n,
        count: n,
        events,
    }
}

impl Judge {
    // Opens a judge and takes a trace's records up to the first refusal: its number 0 is the opening's.
    pub fn judge_trace(opening: Opening, log: &mut [u8], work: &mut [u64], trace: &[u8]) -> Traced
        ensures { TracedBy opening log.old work.old trace.now result log.new work.new }
    {
        let o = Judge::open(opening, log, work);
        let judge = o.judge;
        match o.outcome {
            Ok(()) => judge.fed(log, work, trace),
            Err(refusal) => Traced {
                outcome: Err(refusal),
                at: 0,
                judge,
            },
        }
    }

    // The judge, which has taken nothing, after a trace's records.
    fn fed(self, log: &mut [u8], work: &mut [u64], trace: &[u8]) -> Traced
        ensures { Feeds (state_of (judge_by self.opening self.capacity 0 0 (replicate rows_size 0)) log.old work.old) trace.now 0 (outcome_number result.outcome) result.at (state_of result.judge log.new work.new) }
    {
        let cap = self.capacity;
        let opening = self.opening;
        // An array: the library has no heap.
        let mut rows = [0u64; ROWS];
        let f = feed(log, work, &mut rows, cap, opening.tenant, trace);
        let reports = read_rows(&rows, 0);
        Traced {
            outcome: f.outcome,
            at: f.at,
            judge: Judge {
                capacity: cap,
                count: f.count,
                events: f.events,
                opening,
                reports,
            },
        }
    }
}
