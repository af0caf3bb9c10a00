// The look-ups: one guard and one shape for every question.
ghost use Rattle.std.specs.Prelude.{◌≡◌, []};
ghost use Rattle.judge.specs.Lookups.{found_number, value_of, ListedBy, LookedBy};

use crate::state::Judge;
use decision::refusal::Refusal;
use descriptors::cells::{is_empty, statements};
use descriptors::value::{at, before, first_at_generation};
use history::past::Past;
use ids_unique::list::{blocks, holders_of};

// What can be asked of the records taken, by the names of the Rust. The last two write a list.
#[derive(Clone, Copy)]
pub enum Question {
    Before(u64, u64),
    At(u64, u64),
    FirstAtGeneration(u64, u64),
    Statements,
    IsEmpty,
    HoldersOf(u64),
    Blocks,
}

// What a look-up gives: its refusal, the judge, and the answer. That is the number of the putting record, 0 for none; how many
// statements, holders or blocks there are; 1 where no value has been put, else 0.
// The interface gives a value in any case: that of no records where the judge is refused, 0 where the list is too short (specs/Lookups).
#[derive(Clone, Copy)]
pub struct Looked {
    pub outcome: Result<(), Refusal>,
    pub judge: Judge,
    pub value: u64,
}

// The number of the record found, 0 for none.
fn found_number(found: Option<u64>) -> u64
    ensures { result ≡ found_number found }
{
    found.unwrap_or(0)
}

// The answer of no records.
fn of_none(question: Question) -> u64
    ensures { result ≡ value_of question [] }
{
    match question {
        Question::IsEmpty => 1,
        _ => 0,
    }
}

// The answer of the records that the columns are of, or none where the list is too short for it.
// It is a word, as C is given it, into which the length of a list has no `From`: `as` is proved to lose nothing.
fn answer(past: &Past, question: Question, out: &mut [u64]) -> Option<u64>
    ensures { ListedBy question past.now.cap past.now.log.now past.now.work.now past.now.count out.old out.new result }
{
    match question {
        Question::Before(range, index) => { Some(found_number(before(past, range, index))) }
        Question::At(range, index) => { Some(found_number(at(past, range, index))) }
        Question::FirstAtGeneration(range, generation) => {
            let first = first_at_generation(past, range, generation);
            Some(found_number(first))
        }
        Question::Statements => Some(statements(past.work, past.count, past.cap)),
        Question::IsEmpty => Some(u64::from(is_empty(past.work, past.count, past.cap))),
        Question::HoldersOf(id) => holders_of(past, id, out).map(|count| count as u64),
        Question::Blocks => blocks(past, out).map(|count| count as u64),
    }
}

impl Judge {
    // Answers a question by the records taken, and hands the judge back as it was given.
    pub fn look_up(self, log: &[u8], work: &[u64], question: Question, out: &mut [u64]) -> Looked
        ensures { LookedBy question self log.now work.now out.old out.new result }
    {
        let suiting = self.suits(log.len(), work.len());
        let judge = suiting.judge;
        if !suiting.holds {
            return Looked {
                outcome: Err(Refusal::Judge),
                judge,
                value: of_none(question),
            };
        }
        let n = judge.count;
        let cap = judge.capacity;
        // The capacity that a refused opening leaves: with no bucket to look in, the answer is that of no records.
        if cap == 0 {
            return Looked {
                outcome: Ok(()),
                judge,
                value: of_none(question),
            };
        }
        let past = Past {
            log,
            work,
            count: n,
            cap,
        };
        let Some(value) = answer(&past, question, out) else {
            return Looked {
                outcome: Err(Refusal::Output),
                judge,
                value: 0,
            };
        };
        Looked {
            outcome: Ok(()),
            judge,
            value,
        }
    }
}
