// What a new record leaves in the columns of `Descriptors`: it is entered into the chains that it belongs to, and its word has the
// counts after it.
// Kinds are numbers, as the project's scope numbers them and the definitions speak of them (`is_kind`): an enum would be read back into them.
ghost use Rattle.std.specs.Prelude.{◌≡◌, cond, ◌∷◌, ℕ, ◌+◌, ◌*◌, ◌≤◌, ◌<◌, length, get_or, MatchOption, ⊤};
ghost use Rattle.record.specs.Records.{decode};
ghost use Rattle.rules.specs.History.{is_some};
ghost use Rattle.rules.specs.Descriptors.{role_of, puts};
ghost use Rattle.history.specs.Logs.{hist};
ghost use Rattle.history.specs.Bounds.{Bounds};
ghost use Rattle.history.specs.Pasts.{taken, Indexed};
ghost use Rattle.descriptors.specs.Columns.{DescriptorsIndexed, applied_at, AllEntered, added, puts_value, states_value, adds_first, adds_rising, Telling, counts_next, own_columns};

use crate::cells::{MARK, counts};
use crate::role::{Role, applies, role_of};
use crate::value::{first_of, greatest, index_of, standing_at};
use history::bucket::{bucket_by, bucket_by_two};
use history::chain::{enter_if, put};
use history::past::Past;
use history::place::{
    APPLIED_HEADS, APPLIED_LINKS, COUNTS, GENERATION_HEADS, GENERATION_LINKS, STANDING_HEADS,
    STANDING_LINKS, STATED_HEADS, STATED_LINKS,
};
use record::Record;
use record::field::{a, d, kind, node};

// A value that newly stands: whether it is the first of its range and generation, and above every standing value of its range.
#[derive(Clone, Copy)]
pub struct Added {
    pub first: bool,
    pub rises: bool,
}

// What a new record is to be entered for: it puts, with what it adds where no value stood at its place, or it states. Three cases, of which
// one has a value: an option in an option would not say which is which.
#[derive(Clone, Copy)]
pub enum Told {
    Puts(Option<Added>),
    States,
    Neither,
}

impl Told {
    fn stands(self) -> bool
        ensures { result ≡ is_some (added self) }
    {
        matches!(self, Told::Puts(Some(_)))
    }

    fn states(self) -> bool
        ensures { result ≡ states_value self }
    {
        matches!(self, Told::States)
    }

    // Here and in the next function `true` is a part of a pattern, and switches nothing.
    fn is_first(self) -> bool
        ensures { result ≡ adds_first self }
    {
        matches!(self, Told::Puts(Some(Added { first: true, .. })))
    }

    fn rises(self) -> bool
        ensures { result ≡ adds_rising self }
    {
        matches!(self, Told::Puts(Some(Added { rises: true, .. })))
    }
}

// The bucket of a record's node and range, where it tells an applied index.
fn applied_bucket(cap: usize, rec: &Record) -> Option<usize>
    requires { (0 < cap) × (cap ≤ 4096) }
    ensures bucket { result ≡ applied_at cap (decode rec.now) (decode rec.now).node }
    ensures within { MatchOption result ⊤ (λ b. b < cap) }
{
    let n = node(rec)?;
    if !applies(kind(rec)) {
        return None;
    }
    Some(bucket_by_two(cap, u64::from(n.0), a(rec)))
}

// A put at an index: whether it stands, is the first of its generation, and is above the greatest of its range.
fn told_put(past: &Past, rec: &Record, index: u64) -> Told
    ensures { let x = decode rec.now in
        let h = taken past.now in
        Indexed DescriptorsIndexed past.now → role_of x h ≡ puts index → Telling x h result }
{
    let range = a(rec);
    if standing_at(past, range, index).is_some() {
        return Told::Puts(None);
    }
    Told::Puts(Some(Added {
        first: first_of(past, range, d(rec)).is_none(),
        rises: greatest(past, range, None, None).is_none_or(|top| index_of(&top) < index),
    }))
}

// What a new record is to be entered for.
#[tactic(auto, using(crate::proofs::Noting::told_states, crate::proofs::Noting::told_neither))]
fn told_of(past: &Past, rec: &Record) -> Told
    ensures { Indexed DescriptorsIndexed past.now → Telling (decode rec.now) (taken past.now) result }
{
    match role_of(past, rec) {
        Role::Puts(index) => told_put(past, rec, index),
        Role::States(_) => Told::States,
        Role::Neither => Told::Neither,
    }
}

fn counts_next(old: u64, told: Told) -> u64
    requires { old < 16384 }
    ensures { (result ≡ counts_next old (puts_value told) (states_value told)) × (result < 16386) }
{
    match told {
        Told::Puts(_) => old / 2 * 2 + 1,
        Told::States => old + 2,
        Told::Neither => old,
    }
}

// The word of a record: the counts after it, and the mark of a value that rises.
fn word(counts: u64, rises: bool) -> u64
    requires { counts < 16386 }
    ensures { result ≡ counts + cond rises 16384 0 }
{
    if rises { counts + MARK } else { counts }
}

// Enters the record at place count into its chains: by node and range, by range, by range and generation.
fn enter_all(work: &mut [u64], count: usize, cap: usize, rec: &Record, told: Told)
    requires { (32 * cap ≤ length work.old) × ((count < cap) × (cap ≤ 4096)) }
    ensures { AllEntered work.old work.new count cap (decode rec.now) told }
{
    let by_range = bucket_by(cap, a(rec));
    let by_generation = bucket_by_two(cap, a(rec), d(rec));
    let applied = applied_bucket(cap, rec);
    let standing = told.stands().then_some(by_range);
    let stated = told.states().then_some(by_range);
    let generation = told.is_first().then_some(by_generation);
    enter_if(
        work,
        APPLIED_HEADS * cap,
        APPLIED_LINKS * cap,
        count,
        applied,
    );
    enter_if(
        work,
        STANDING_HEADS * cap,
        STANDING_LINKS * cap,
        count,
        standing,
    );
    enter_if(work, STATED_HEADS * cap, STATED_LINKS * cap, count, stated);
    enter_if(
        work,
        GENERATION_HEADS * cap,
        GENERATION_LINKS * cap,
        count,
        generation,
    );
}

// Notes a new record: whatever the log and the work area hold, no word outside the crate's own columns changes, and where the
// columns are what the history says, they are so with the record.
// The work area is lent for writing, so a `Past` is made only for what the record is entered for.
pub fn note(log: &[u8], work: &mut [u64], count: usize, cap: usize, rec: &Record)
    requires { Bounds log.now work.old count cap × (count < cap) }
    ensures len { length work.new ≡ length work.old }
    ensures others { (j : ℕ) → own_columns * cap ≤ j → get_or work.new j 0 ≡ get_or work.old j 0 }
    ensures indexed { DescriptorsIndexed cap (hist log.now count) work.old → DescriptorsIndexed cap (decode rec.now ∷ hist log.now count) work.new }
{
    let past = Past {
        log,
        work,
        count,
        cap,
    };
    let told = told_of(&past, rec);
    let after = counts_next(counts(work, count, cap), told);
    enter_all(work, count, cap, rec, told);
    put(work, COUNTS * cap + count, word(after, told.rises()));
}
