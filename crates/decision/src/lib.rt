// What is decided of a record: the refusal that it draws, or the checks that it concerns.
// Kinds are numbers, as the project's scope numbers them and the definitions speak of them.
#![tactic(auto)]

pub mod refusal;

ghost use Rattle.std.specs.Prelude.{◌≡◌, ◌≤◌, IfOk, MatchResult};
ghost use Rattle.record.specs.Numbers.{byte_at};
ghost use Rattle.decision.specs.declared.refusal.Refusal.TheVariants.{Kind};
ghost use Rattle.decision.specs.Refusals.{suits_by, outcome_number, push_refusal_by, concerned_of};

use crate::refusal::Refusal;
use events::stray;
use form::record_of;
use record::Record;
use record::limits::RECORD_SIZE;

// The largest capacity, and the words of the work area for each record.
pub const CAPACITY: usize = 4096;

pub const WORDS: usize = 32;

// Whether a record concerns each check, by the checks' names.
#[derive(Clone, Copy, PartialEq, Eq)]
pub struct Concerned {
    pub agreement: bool,
    pub overlap: bool,
    pub install: bool,
    pub twice: bool,
    pub half: bool,
    pub generations: bool,
    pub ids: bool,
    pub meta: bool,
}

const NO_CHECK: Concerned = Concerned {
    agreement: false,
    overlap: false,
    install: false,
    twice: false,
    half: false,
    generations: false,
    ids: false,
    meta: false,
};

// The bytes of a record that is not refused, and the checks that it concerns.
#[derive(Clone, Copy)]
pub struct Decided<'a> {
    pub record: &'a Record,
    pub concerned: Concerned,
}

// Whether the numbers are a judge's, and the lengths of log and work area those of its capacity. The capacity's test comes first,
// so that the products fit.
pub fn suits(cap: usize, count: usize, logs: usize, words: usize) -> bool
    ensures { result ≡ suits_by cap count logs words }
{
    cap <= CAPACITY && count <= cap && logs == RECORD_SIZE * cap && words == WORDS * cap
}

// The checks that a record of a kind concerns, named by the arm of that kind; a number that no kind has draws refusal 2.
fn concerned_of(kind: u8) -> Result<Concerned, Refusal>
    ensures { MatchResult result (λ concerned. concerned ≡ concerned_of kind) (λ refusal. (refusal ≡ Kind) × (1 ≤ kind → kind ≤ 12 → ⊥)) }
{
    match kind {
        1 => Ok(Concerned {
            agreement: true,
            overlap: true,
            twice: true,
            half: true,
            ..NO_CHECK
        }),
        2 => Ok(Concerned {
            agreement: true,
            overlap: true,
            half: true,
            ..NO_CHECK
        }),
        3 => Ok(Concerned {
            half: true,
            generations: true,
            ..NO_CHECK
        }),
        5 => Ok(Concerned {
            half: true,
            ..NO_CHECK
        }),
        8 => Ok(Concerned {
            install: true,
            ..NO_CHECK
        }),
        11 => Ok(Concerned {
            ids: true,
            ..NO_CHECK
        }),
        12 => Ok(Concerned {
            meta: true,
            ..NO_CHECK
        }),
        4 | 6..=7 | 9..=10 => Ok(NO_CHECK),
        _ => Err(Refusal::Kind),
    }
}

// Decides by the judge's numbers, the record's kind and form, the event that it continues and the room for it. Refusals come in the order
// 5, 1, 2, 3, 4, 11, 6. The core is lent numbers and slices across calls, docs/DECISIONS.md 37.
pub fn decide<'a>(
    log: &[u8],
    words: usize,
    count: usize,
    cap: usize,
    bytes: &'a [u8],
) -> Result<Decided<'a>, Refusal>
    ensures refused { outcome_number result ≡ push_refusal_by cap count log.now words bytes.now }
    ensures taken { IfOk result (λ decided. (decided.record.now ≡ bytes.now) × (decided.concerned ≡ concerned_of (byte_at 0 bytes.now))) }
{
    if !suits(cap, count, log.len(), words) {
        return Err(Refusal::Judge);
    }
    if bytes.len() != RECORD_SIZE {
        return Err(Refusal::Length);
    }
    let concerned = concerned_of(bytes[0])?;
    let record = record_of(bytes)?;
    if stray(log, count, record) {
        return Err(Refusal::Event);
    }
    if count == cap {
        return Err(Refusal::Full);
    }
    Ok(Decided { record, concerned })
}
