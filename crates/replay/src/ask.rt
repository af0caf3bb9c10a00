// The look-ups of a trace: each question is put to the judge, and its answer held to the stored words.
use crate::read;
use judge::lookup::Question;
use judge::state::Judge;
use std::io::Read;

// A judge, and whether its answers so far were the stored ones.
// After a wrong answer too the judge is asked on, since what is stored has to be read to its end.
#[derive(Clone, Copy)]
struct Asked {
    judge: Judge,
    right: bool,
}

// A stored question: the number of a look-up, and two numbers of which it takes what it needs.
fn question_of(what: u8, first: u64, second: u64) -> Option<Question> {
    match what {
        1 => Some(Question::Before(first, second)),
        2 => Some(Question::At(first, second)),
        3 => Some(Question::FirstAtGeneration(first, second)),
        4 => Some(Question::Statements),
        5 => Some(Question::IsEmpty),
        6 => Some(Question::HoldersOf(first)),
        7 => Some(Question::Blocks),
        _ => None,
    }
}

// How many words of the output an answer is. A list of holders has one an entry, and a list of blocks three; any other answer is one
// number, which is put there.
fn laid_out(question: Question, value: u64, out: &mut [u64; 64]) -> u64 {
    match question {
        Question::HoldersOf(_) => value,
        Question::Blocks => value.saturating_mul(3),
        _ => {
            out[0] = value;
            1
        }
    }
}

// Whether the stored answer is so many words of the output. It is read to its end even where it is not, since the next question
// stands behind it.
fn is_stored<R: Read>(file: &mut R, out: &[u64; 64], words: Option<u64>) -> Option<bool> {
    let count = read::two(file)?;
    let mut same = words == Some(u64::from(count));
    // Each word is read, also past those that are held to it: so the turns are those of the file.
    for i in 0..count {
        let word = read::eight(file)?;
        same = same && out.get(usize::from(i)) == Some(&word);
    }
    Some(same)
}

// One question more. A number that is no look-up's counts as wrong, and the answer stored for it is read over.
fn after_question<R: Read>(file: &mut R, asked: Asked, log: &[u8], work: &[u64]) -> Option<Asked> {
    let what = read::one(file)?;
    let first = read::eight(file)?;
    let second = read::eight(file)?;
    // Memory is fixed in this program: a longer answer counts as wrong.
    let mut out = [0u64; 64];
    let Some(question) = question_of(what, first, second) else {
        is_stored(file, &out, None)?;
        return Some(Asked {
            right: false,
            ..asked
        });
    };
    let looked = asked.judge.look_up(log, work, question, &mut out);
    let answered = looked.outcome.is_ok();
    let words = laid_out(question, looked.value, &mut out);
    let same = is_stored(file, &out, answered.then_some(words))?;
    Some(Asked {
        judge: looked.judge,
        right: asked.right && same,
    })
}

// All questions of a trace: whether each answer is the stored one.
pub fn all_asked<R: Read>(file: &mut R, judge: Judge, log: &[u8], work: &[u64]) -> Option<bool> {
    let count = read::two(file)?;
    let mut asked = Asked { judge, right: true };
    for _ in 0..count {
        asked = after_question(file, asked, log, work)?;
    }
    Some(asked.right)
}
