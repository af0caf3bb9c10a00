// Agreement: the case of a new record, where there was none before. Only what the record touches is judged.
// Kinds are numbers, as the project's scope numbers them and the definitions speak of them (`is_kind`): an enum would be read back into them.
ghost use Rattle.std.specs.Prelude.{◌≡◌, false, [], ◌∷◌, leb, ltb, None};
ghost use Rattle.record.specs.Records.{decode};
ghost use Rattle.rules.specs.History.{holds, is_some, earliest_of, any_of};
ghost use Rattle.rules.specs.Descriptors.{role_of, puts, held_by, standing, stated, at_in, statement_fault, entry_at, same_place, agreement};
ghost use Rattle.descriptors.specs.Columns.{DescriptorsIndexed, put, statement, stated_index};
ghost use Rattle.descriptors.specs.Answers.{greatest_up_to, lowest_above, ahead_case, differs_case, falls_by, against_by, becomes_faulty, new_case};
ghost use Rattle.descriptors.specs.Agreement.{next_in, last_in, new_faulty};
ghost use Rattle.history.specs.Pasts.{taken, Indexed};

use crate::role::{Role, role_of};
use crate::value::{first_of, greatest, index_of, lowest, standing_at, value_at};
use history::bucket::bucket_by;
use history::held::same_held;
use history::past::Past;
use history::place::{STATED_HEADS, STATED_LINKS};
use history::walk::Taken;
use record::Record;
use record::field::{a, b, c, d, kind};
use rules::Fault;

// The case of a statement with a larger generation than the value in force: that the range took it only above.
fn ahead_case(past: &Past, range: u64, index: u64, generation: u64) -> Option<Fault>
    ensures { Indexed DescriptorsIndexed past.now → result ≡ ahead_case range index generation (standing (taken past.now)) }
{
    let above = lowest(past, range, index, Some(generation))?;
    Some(Fault::new(2, &[range, index, index_of(&above)]))
}

// The case of a statement, given the record of the value that it is judged by.
#[tactic(auto, using(crate::proofs::Judged::differs_ahead, crate::proofs::Judged::differs_behind))]
fn differing_case(past: &Past, value: &Record, stated: &Record, index: u64) -> Option<Fault>
    ensures { let s = decode stated.now in
        Indexed DescriptorsIndexed past.now → result ≡ differs_case s.a index (held_by (decode value.now)) (held_by s) (standing (taken past.now)) }
{
    if same_held(value, stated) {
        return None;
    }
    if d(value) < d(stated) {
        return ahead_case(past, a(stated), index, d(stated));
    }
    Some(Fault::new(3, &[a(stated), index]))
}

// The case of a new statement at an index.
#[tactic(auto, using(crate::proofs::Judged::state_none, crate::proofs::Judged::state_some))]
fn statement_case(past: &Past, rec: &Record, index: u64) -> Option<Fault>
    ensures { let h = taken past.now in
        Indexed DescriptorsIndexed past.now → result ≡ statement_fault (standing h) (entry_at index (decode rec.now) h) }
{
    let value = value_at(past, a(rec), index)?;
    differing_case(past, value.record, rec, index)
}

// The index at which a record states its value.
fn stated_index(rec: &Record) -> u64
    ensures { result ≡ stated_index (decode rec.now) }
{
    if kind(rec) == 1 { b(rec) } else { c(rec) }
}

// A value that is put where none stood: its record and index, the lowest value of its range above it, and the greatest of its
// range and generation.
#[derive(Clone, Copy)]
struct New<'a> {
    record: &'a Record,
    index: u64,
    next: Option<Taken<'a>>,
    last: Option<Taken<'a>>,
}

// Whether the value in force at a statement's index has a lower generation.
#[tactic(auto, using(crate::proofs::Judged::in_force), unfolding(rules::specs::Descriptors::held_by))]
fn is_ahead(past: &Past, stated: &Record, index: u64) -> bool
    ensures { let x = decode stated.now in
        Indexed DescriptorsIndexed past.now → result ≡ holds (λ v. ltb v.held.generation x.d) (at_in x.a index (standing (taken past.now))) }
{
    value_at(past, a(stated), index).is_some_and(|value| d(value.record) < d(stated))
}

// Whether a statement below a new value becomes faulty by it.
fn falls_behind(past: &Past, new: &New, stated: &Record, index: u64) -> bool
    ensures { let x = decode new.now.record.now in
        Indexed DescriptorsIndexed past.now → result ≡ falls_by (put new.now.last) x.d (decode stated.now) index (standing (taken past.now)) }
{
    d(stated) == d(new.record)
        && !new.last.is_some_and(|value| index < index_of(&value))
        && is_ahead(past, stated, index)
}

// Whether the range took a statement's generation above it: a first value of that generation is looked for before the walk.
#[tactic(auto, using(crate::proofs::Judged::none_found, crate::proofs::Judged::none_above))]
fn is_taken_above(past: &Past, stated: &Record, index: u64) -> bool
    ensures { let x = decode stated.now in
        Indexed DescriptorsIndexed past.now → result ≡ is_some (lowest_above x.a index (Some x.d) (standing (taken past.now))) }
{
    first_of(past, a(stated), d(stated)).is_some()
        && lowest(past, a(stated), index, Some(d(stated))).is_some()
}

// Whether a statement not below a new value becomes faulty by it.
fn goes_against(past: &Past, new: &New, stated: &Record, index: u64) -> bool
    ensures { let x = decode new.now.record.now in
        Indexed DescriptorsIndexed past.now → result ≡ against_by (put new.now.next) x (decode stated.now) index (standing (taken past.now)) }
{
    !new.next.is_some_and(|value| index_of(&value) <= index)
        && !same_held(new.record, stated)
        && (d(stated) <= d(new.record) || is_taken_above(past, stated, index))
}

// Whether the statement of a record becomes faulty by a new value.
fn becomes_faulty(past: &Past, new: &New, stated: &Record) -> bool
    ensures { let n = new.now in
        let vs = standing (taken past.now) in
        Indexed DescriptorsIndexed past.now → result ≡ becomes_faulty (put n.next) (put n.last) (decode n.record.now) n.index (decode stated.now) vs }
{
    if a(stated) != a(new.record) {
        return false;
    }
    let index = stated_index(stated);
    if index < new.index {
        falls_behind(past, new, stated, index)
    } else {
        goes_against(past, new, stated, index)
    }
}

// The earliest statement that becomes faulty by a new value.
fn first_faulty<'a>(past: &Past<'a>, new: &New) -> Option<Taken<'a>>
    ensures { let vs = standing (taken past.now) in
        let v = entry_at new.now.index (decode new.now.record.now) (taken past.now) in
        Indexed DescriptorsIndexed past.now → put new.now.next ≡ next_in v vs → put new.now.last ≡ last_in v vs
        → statement result ≡ earliest_of (new_faulty v vs) (stated (taken past.now)) }
{
    let mut earliest: Option<Taken> = None;
    let bucket = bucket_by(past.cap, a(new.record));
    for old in past.chain(STATED_HEADS, STATED_LINKS, bucket) {
        if becomes_faulty(past, new, old.record) {
            earliest = Some(old);
        }
    }
    earliest
}

// The case of the statement of a record that became faulty by a new value.
fn new_case(past: &Past, new: &New, stated: &Record) -> Option<Fault>
    ensures { let n = new.now in
        Indexed DescriptorsIndexed past.now → result ≡ new_case n.index (decode n.record.now) (decode stated.now) (standing (taken past.now)) }
{
    let index = stated_index(stated);
    if index < new.index {
        return Some(Fault::new(2, &[a(stated), index, new.index]));
    }
    differing_case(past, new.record, stated, index)
}

// The greatest value of a range and generation: a first one is looked for before the walk.
#[tactic(auto, using(crate::proofs::Judged::none_greatest))]
fn last_of<'a>(past: &Past<'a>, range: u64, generation: u64) -> Option<Taken<'a>>
    ensures { Indexed DescriptorsIndexed past.now → put result ≡ greatest_up_to range None (Some generation) (standing (taken past.now)) }
{
    first_of(past, range, generation)?;
    greatest(past, range, None, Some(generation))
}

// The case of a put at an index where no value stood.
#[tactic(auto, using(crate::proofs::Faulty::next_is, crate::proofs::Faulty::last_is, crate::proofs::Faulty::put_clear, crate::proofs::Faulty::put_faulty))]
fn new_put_case(past: &Past, rec: &Record, index: u64) -> Option<Fault>
    ensures { let x = decode rec.now in
        let h = taken past.now in
        Indexed DescriptorsIndexed past.now → role_of x h ≡ puts index → any_of (same_place (entry_at index x h)) (standing h) ≡ false
        → agreement h ≡ None → result ≡ agreement (x ∷ h) }
{
    let new = New {
        record: rec,
        index,
        next: lowest(past, a(rec), index, None),
        last: last_of(past, a(rec), d(rec)),
    };
    let faulty = first_faulty(past, &new)?;
    new_case(past, &new, faulty.record)
}

// The case of a put at an index.
#[tactic(auto, using(crate::proofs::Judged::place_is, crate::proofs::Judged::place_free))]
fn put_case(past: &Past, rec: &Record, index: u64) -> Option<Fault>
    ensures { let x = decode rec.now in
        let h = taken past.now in
        Indexed DescriptorsIndexed past.now → role_of x h ≡ puts index → agreement h ≡ None → result ≡ agreement (x ∷ h) }
{
    let Some(value) = standing_at(past, a(rec), index) else {
        return new_put_case(past, rec, index);
    };
    if same_held(value.record, rec) {
        return None;
    }
    Some(Fault::new(1, &[a(rec), index]))
}

// The case of a new record, where there was none before it.
#[tactic(auto, using(rules::proofs::Agreement::agreement_states, rules::proofs::Agreement::agreement_neither))]
pub fn agreement(past: &Past, rec: &Record) -> Option<Fault>
    ensures { Indexed DescriptorsIndexed past.now → agreement (taken past.now) ≡ None → result ≡ agreement (decode rec.now ∷ taken past.now) }
{
    match role_of(past, rec) {
        Role::Puts(index) => put_case(past, rec, index),
        Role::States(index) => statement_case(past, rec, index),
        Role::Neither => None,
    }
}
