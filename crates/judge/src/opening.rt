// Opening a judge over a log and a work area of one capacity.
ghost use Rattle.std.specs.Prelude.{◌≡◌, length};
ghost use Rattle.judge.specs.Openings.{fresh_of, Opens};

use crate::state::Judge;
use decision::refusal::Refusal;
use history::chain::clear;
use rows::pass;
use rules::{CHECKS, Opening};

// What an opening gives: its refusal, and the judge.
#[derive(Clone, Copy)]
pub struct Opened {
    pub outcome: Result<(), Refusal>,
    pub judge: Judge,
}

impl Judge {
    // The largest capacity.
    pub const CAPACITY: usize = decision::CAPACITY;

    // The bytes of a record.
    pub const RECORD_SIZE: usize = record::limits::RECORD_SIZE;

    // The words of the work area for each record.
    pub const WORDS: usize = decision::WORDS;

    // The most bytes of a key.
    pub const KEY_LIMIT: u8 = record::limits::KEY_LIMIT;

    // A judge that has taken nothing: every report a pass.
    fn fresh(capacity: usize, opening: Opening) -> Self
        ensures { result ≡ fresh_of capacity opening }
    {
        Self {
            capacity,
            count: 0,
            events: 0,
            opening,
            reports: [pass(); CHECKS],
        }
    }

    // Opens a judge. A refused opening leaves the work area as it stood, and gives a judge of capacity 0.
    pub fn open(opening: Opening, log: &[u8], work: &mut [u64]) -> Opened
        ensures { Opens opening (length log.now) work.old result work.new }
    {
        let capacity = log.len() / Judge::RECORD_SIZE;
        let asked = Judge::fresh(capacity, opening).suits(log.len(), work.len());
        // A log with no room for one record opens no judge: a capacity of 0 is what a refused opening leaves.
        if !asked.holds | (capacity == 0) {
            return Opened {
                outcome: Err(Refusal::Opening),
                judge: Judge::fresh(0, opening),
            };
        }
        let judge = asked.judge;
        clear(work);
        Opened {
            outcome: Ok(()),
            judge,
        }
    }
}
