// The judge and its tests.
ghost use Rattle.std.specs.Prelude.{◌≡◌};
ghost use Rattle.decision.specs.Refusals.{fits_by, suits_by, outcome_number};

pub use decision::refusal::Refusal;
use decision::{CAPACITY, suits};
use rules::{CHECKS, Opening, Report};

// A judge: its capacity, how many records it has taken, of how many events, the opening's numbers, and the reports in printing order.
#[derive(Clone, Copy)]
pub struct Judge {
    pub capacity: usize,
    pub count: usize,
    pub events: u64,
    pub opening: Opening,
    pub reports: [Report; CHECKS],
}

// What a test of the judge gives: whether it holds, and the judge as it was given, since a judge goes in and comes back by value.
#[derive(Clone, Copy)]
pub struct Tested {
    pub holds: bool,
    pub judge: Judge,
}

// Document 01's and 02's number of what a call came to, 0 where it was not refused. No `From` can say it: a `Result` and a number are both std's.
pub fn number_of(outcome: Result<(), Refusal>) -> u64
    ensures { result ≡ outcome_number outcome }
{
    match outcome {
        Ok(()) => 0,
        Err(refusal) => refusal.number(),
    }
}

impl Judge {
    // Whether the judge's numbers are those of a judge: else its reports are refused.
    pub fn fits(self) -> Tested
        ensures { (result.holds ≡ fits_by self.capacity self.count) × (result.judge ≡ self) }
    {
        Tested {
            holds: (self.capacity <= CAPACITY) & (self.count <= self.capacity),
            judge: self,
        }
    }

    // Whether it fits, and the lengths of a log and a work area are those of its capacity.
    pub(crate) fn suits(self, logs: usize, words: usize) -> Tested
        ensures { (result.holds ≡ suits_by self.capacity self.count logs words) × (result.judge ≡ self) }
    {
        Tested {
            holds: suits(self.capacity, self.count, logs, words),
            judge: self,
        }
    }
}
