// The standing values of a range: walks along their chain, and the look-ups.
ghost use Rattle.std.specs.Prelude.{◌≡◌, Bool, ℕ, Some, ◌&&◌, ◌+◌, ◌-◌, ◌*◌, ◌<◌, eqb, leb, get_or};
ghost use Rattle.rules.specs.History.{latest_of};
ghost use Rattle.rules.specs.Descriptors.{standing, at, before, first_at_generation};
ghost use Rattle.history.specs.Buckets.{bucket_by};
ghost use Rattle.history.specs.declared.past.Past.{Past};
ghost use Rattle.history.specs.Weighing.{weigh_of};
ghost use Rattle.history.specs.Places.{standing_heads, standing_links, counts};
ghost use Rattle.history.specs.Pasts.{taken, Indexed, IsTaken, IsFound, Begins};
ghost use Rattle.descriptors.specs.Columns.{DescriptorsIndexed, put_entry, put};
ghost use Rattle.descriptors.specs.Answers.{found_by, asks, up_to, greatest_up_to, above, lowest_above, at_place, of_generation};

use crate::cells::is_rising;
use history::bucket::{bucket_by, bucket_by_two};
use history::past::Past;
use history::place::{GENERATION_HEADS, GENERATION_LINKS, STANDING_HEADS, STANDING_LINKS};
use history::walk::{Chain, Taken};
use record::field::{a, b, d};

// The index at which a record puts its value.
pub fn index_of(value: &Taken) -> u64
    ensures { result ≡ (put_entry value.now).index }
{
    b(value.record)
}

// The standing values of a range, with those of the other ranges of its bucket.
fn standing<'a>(past: &Past<'a>, range: u64) -> Chain<'a>
    ensures { Begins past.now standing_heads standing_links (bucket_by past.now.cap range) result }
{
    past.chain(STANDING_HEADS, STANDING_LINKS, bucket_by(past.cap, range))
}

// Whether every earlier value of the range than that of a record is known to be below the index.
fn is_rest_below(past: &Past, old: &Taken, range: u64, index: u64) -> bool
    requires { IsTaken past.now old.now }
    ensures { let v = put_entry old.now in
        result ≡ leb 16384 (get_or past.now.work.now (counts * past.now.cap + (old.now.number - 1)) 0) && eqb v.range range && leb v.index index }
{
    is_rising(past.work, past.cap, old.number - 1)
        & (a(old.record) == range)
        & (index_of(old) <= index)
}

// Whether a value is of a generation, where one is asked for.
#[tactic(auto, unfolding(rules::specs::Descriptors::held_by))]
fn is_of_generation(value: &Taken, generation: Option<u64>) -> bool
    ensures { result ≡ asks (λ wanted. eqb (put_entry value.now).held.generation wanted) generation }
{
    generation.is_none_or(|wanted| d(value.record) == wanted)
}

// Whether a value is of a range, and up to an index and of a generation where these are asked for.
fn is_up_to(value: &Taken, range: u64, index: Option<u64>, generation: Option<u64>) -> bool
    ensures { result ≡ up_to range index generation (put_entry value.now) }
{
    let at = index_of(value);
    (a(value.record) == range)
        & index.is_none_or(|top| at <= top)
        & is_of_generation(value, generation)
}

// The better of two values: the one so far, where its index keeps its place against the older one's, and else the older.
fn better<'a, F: Fn(u64, u64) -> bool>(
    best: Option<Taken<'a>>,
    old: Taken<'a>,
    keeps: F,
) -> Option<Taken<'a>>
    requires { F.IsAlwaysCallable keeps }
    ensures better { (test : ℕ → ℕ → Bool) → ((x y : ℕ) (b : Bool) → F.post keeps x y b → b ≡ test x y)
        → put result ≡ weigh_of (λ w v. test w.index v.index) (put best.entry) (Some (put_entry old.entry)) }
    ensures found { (p : Past) → IsFound p best.entry → IsTaken p old.entry → IsFound p result }
{
    match best {
        Some(kept) if keeps(index_of(&kept), index_of(&old)) => best,
        _ => Some(old),
    }
}

// The value of a range at the greatest index, up to one and of a generation where these are asked for. Earlier values than a
// marked one that passes are below it: the walk stops, as no `max_by_key` would.
pub fn greatest<'a>(
    past: &Past<'a>,
    range: u64,
    index: Option<u64>,
    generation: Option<u64>,
) -> Option<Taken<'a>>
    ensures found { IsFound past.now result }
    ensures greatest { Indexed DescriptorsIndexed past.now → put result ≡ greatest_up_to range index generation (standing (taken past.now)) }
{
    let mut best: Option<Taken> = None;
    for old in standing(past, range) {
        if is_up_to(&old, range, index, generation) {
            best = better(best, old, |kept, next| next < kept);
            if is_rising(past.work, past.cap, old.number - 1) {
                return best;
            }
        }
    }
    best
}

// Whether a value is of a range, above an index, and of a generation where that is asked for.
fn is_above(value: &Taken, range: u64, index: u64, generation: Option<u64>) -> bool
    ensures { result ≡ above range index generation (put_entry value.now) }
{
    (a(value.record) == range) & (index < index_of(value)) & is_of_generation(value, generation)
}

// The value of a range at the lowest index above one, of a generation where that is asked for. The walk stops where nothing
// earlier is above.
pub fn lowest<'a>(
    past: &Past<'a>,
    range: u64,
    index: u64,
    generation: Option<u64>,
) -> Option<Taken<'a>>
    ensures found { IsFound past.now result }
    ensures lowest { Indexed DescriptorsIndexed past.now → put result ≡ lowest_above range index generation (standing (taken past.now)) }
{
    let mut best: Option<Taken> = None;
    for old in standing(past, range) {
        if is_above(&old, range, index, generation) {
            best = better(best, old, |kept, next| kept < next);
        } else if is_rest_below(past, &old, range, index) {
            return best;
        }
    }
    best
}

fn is_at(value: &Taken, range: u64, index: u64) -> bool
    ensures { result ≡ at_place range index (put_entry value.now) }
{
    (range == a(value.record)) & (index == index_of(value))
}

// The value that stands at an index of a range. The walk stops where everything earlier is below, with nothing found: so it is
// no `find`.
pub fn standing_at<'a>(past: &Past<'a>, range: u64, index: u64) -> Option<Taken<'a>>
    ensures found { IsFound past.now result }
    ensures standing { Indexed DescriptorsIndexed past.now → put result ≡ latest_of (at_place range index) (standing (taken past.now)) }
{
    for old in standing(past, range) {
        if is_at(&old, range, index) {
            return Some(old);
        }
        if is_rest_below(past, &old, range, index) {
            return None;
        }
    }
    None
}

#[tactic(auto, unfolding(rules::specs::Descriptors::held_by))]
fn is_of(value: &Taken, range: u64, generation: u64) -> bool
    ensures { result ≡ of_generation range generation (put_entry value.now) }
{
    (a(value.record) == range) & (d(value.record) == generation)
}

// The first value of a range and generation.
pub fn first_of<'a>(past: &Past<'a>, range: u64, generation: u64) -> Option<Taken<'a>>
    ensures found { IsFound past.now result }
    ensures first { Indexed DescriptorsIndexed past.now → put result ≡ first_at_generation range generation (taken past.now) }
{
    let bucket = bucket_by_two(past.cap, range, generation);
    past.chain(GENERATION_HEADS, GENERATION_LINKS, bucket)
        .find(|old| is_of(old, range, generation))
}

// The value in force at an index of a range, and the one before it: that at the index before.
#[tactic(auto, using(crate::proofs::Found::at_is))]
pub fn value_at<'a>(past: &Past<'a>, range: u64, index: u64) -> Option<Taken<'a>>
    ensures found { IsFound past.now result }
    ensures value { Indexed DescriptorsIndexed past.now → put result ≡ at range index (taken past.now) }
{
    greatest(past, range, Some(index), None)
}

#[tactic(auto, using(rules::proofs::LookUps::before_at, rules::proofs::LookUps::before_zero))]
pub fn value_before<'a>(past: &Past<'a>, range: u64, index: u64) -> Option<Taken<'a>>
    ensures found { IsFound past.now result }
    ensures value { Indexed DescriptorsIndexed past.now → put result ≡ before range index (taken past.now) }
{
    value_at(past, range, index.checked_sub(1)?)
}

// The number of the record that put a value. As an index it has no `From` into a word: `as` is proved to lose nothing.
fn number(value: Option<Taken>) -> Option<u64>
    ensures { result ≡ found_by (put value.entry) }
{
    value.map(|found| found.number as u64)
}

// The look-ups: the value in force at an index of a range, the one before it, and the first of a generation, each by the number
// of the record that put it.
pub fn at(past: &Past, range: u64, index: u64) -> Option<u64>
    ensures { Indexed DescriptorsIndexed past.now → result ≡ found_by (at range index (taken past.now)) }
{
    number(value_at(past, range, index))
}

pub fn before(past: &Past, range: u64, index: u64) -> Option<u64>
    ensures { Indexed DescriptorsIndexed past.now → result ≡ found_by (before range index (taken past.now)) }
{
    number(value_before(past, range, index))
}

pub fn first_at_generation(past: &Past, range: u64, generation: u64) -> Option<u64>
    ensures { Indexed DescriptorsIndexed past.now → result ≡ found_by (first_at_generation range generation (taken past.now)) }
{
    number(first_of(past, range, generation))
}
