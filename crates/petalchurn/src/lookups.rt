// The look-ups: one guarded function for every question, and its seven entries.
ghost use Rattle.std.specs.Prelude.{[]};
ghost use Rattle.judge.specs.declared.lookup.Question.TheVariants.{Before, At, FirstAtGeneration, Statements, IsEmpty, HoldersOf, Blocks};
ghost use Rattle.petalchurn.specs.Lookups.{LooksWords};

use crate::answer::{Answer, answer_of};
use decision::refusal::Refusal;
use judge::lookup::Question;
use judge::state::number_of;
use state_words::{is_state, read_state};

// The judge's answer to a question; 5 where the words are no judge's.
fn looked(state: &[u64], log: &[u8], work: &[u64], question: Question, out: &mut [u64]) -> Answer
    ensures { LooksWords question state.now log.now work.now out.old out.new result }
{
    if !is_state(state) {
        return answer_of(Refusal::Judge.number(), 0);
    }
    let judge = read_state(state);
    let given = judge.look_up(log, work, question, out);
    answer_of(number_of(given.outcome), given.value)
}

// The same for a question that writes no list: it is lent an empty one. That is an array of no words: the library has no heap.
fn looked_bare(state: &[u64], log: &[u8], work: &[u64], question: Question) -> Answer
    ensures { LooksWords question state.now log.now work.now [] [] result }
{
    let mut none = [0u64; 0];
    looked(state, log, work, question, &mut none)
}

// The value of a range at the greatest index below the one given.
pub fn petalchurn_before(state: &[u64], log: &[u8], work: &[u64], range: u64, index: u64) -> Answer
    ensures { LooksWords (Before range index) state.now log.now work.now [] [] result }
{
    looked_bare(state, log, work, Question::Before(range, index))
}

// The value of a range at the greatest index not above the one given.
pub fn petalchurn_at(state: &[u64], log: &[u8], work: &[u64], range: u64, index: u64) -> Answer
    ensures { LooksWords (At range index) state.now log.now work.now [] [] result }
{
    looked_bare(state, log, work, Question::At(range, index))
}

// The first value of a range and generation.
pub fn petalchurn_first_at_generation(
    state: &[u64],
    log: &[u8],
    work: &[u64],
    range: u64,
    generation: u64,
) -> Answer
    ensures { LooksWords (FirstAtGeneration range generation) state.now log.now work.now [] [] result }
{
    looked_bare(
        state,
        log,
        work,
        Question::FirstAtGeneration(range, generation),
    )
}

// How many statements there are.
pub fn petalchurn_statements(state: &[u64], log: &[u8], work: &[u64]) -> Answer
    ensures { LooksWords Statements state.now log.now work.now [] [] result }
{
    looked_bare(state, log, work, Question::Statements)
}

// Whether no value has been put: 1, else 0.
pub fn petalchurn_is_empty(state: &[u64], log: &[u8], work: &[u64]) -> Answer
    ensures { LooksWords IsEmpty state.now log.now work.now [] [] result }
{
    looked_bare(state, log, work, Question::IsEmpty)
}

// The node of each block that contains an id.
pub fn petalchurn_holders_of(
    state: &[u64],
    log: &[u8],
    work: &[u64],
    id: u64,
    out: &mut [u64],
) -> Answer
    ensures { LooksWords (HoldersOf id) state.now log.now work.now out.old out.new result }
{
    looked(state, log, work, Question::HoldersOf(id), out)
}

// Three words of each block: first, last, node.
pub fn petalchurn_blocks(state: &[u64], log: &[u8], work: &[u64], out: &mut [u64]) -> Answer
    ensures { LooksWords Blocks state.now log.now work.now out.old out.new result }
{
    looked(state, log, work, Question::Blocks, out)
}
