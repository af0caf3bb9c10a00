// Splits: who registers one, with which right range and voters, and the record that registered (parent, index).
// Kinds and sub-codes are numbers, as the project's scope numbers them and the definitions speak of them.
ghost use Rattle.std.specs.Prelude.{◌≡◌, ◌&&◌, ℕ, ◌+◌, ◌-◌, ◌≤◌, eqb, Some, IfSome};
ghost use Rattle.std.specs.Option.{option_map};
ghost use Rattle.record.specs.declared.named.ApplyEffect.TheVariants.{Took};
ghost use Rattle.record.specs.Records.{decode};
ghost use Rattle.rules.specs.Answers.{found_at};
ghost use Rattle.rules.specs.History.{is_some, any_of};
ghost use Rattle.rules.specs.GenerationsRise.{has_effect};
ghost use Rattle.rules.specs.RightHalf.{created_split, pending_by, uses_up, registers};
ghost use Rattle.history.specs.Logs.{record_at, hist};
ghost use Rattle.history.specs.Pasts.{taken, Indexed, IsTaken};
ghost use Rattle.one_owner_per_key.specs.Numbers.{latest_by};
ghost use Rattle.splits.specs.Numbers.{split_number, names_number, named_number};
ghost use Rattle.splits.specs.Columns.{Known};
ghost use Rattle.splits.specs.Splits.{parent_by, right_named};
ghost use Rattle.splits.specs.Walk.{split_of, IsSplit, AreSplit, number_by};

use crate::cells::{named_by, pending_of, split_chain};
use history::past::Past;
use history::walk::Taken;
use record::named::{NodeId, ServerId};
use record::{Record, field};

// A split that is registered: the record that registers it, with its number, and its right range. Parent, index and voters are
// that record's.
#[derive(Clone, Copy)]
pub struct Split<'a> {
    pub number: usize,
    pub record: &'a Record,
    pub right: u64,
}

// Whether a record is a RaftApply that took.
pub fn has_taken(rec: &Record) -> bool
    ensures { result ≡ has_effect Took (decode rec.now) }
{
    (field::kind(rec) == 3) & (field::code(rec) == 4)
}

// Whether a record is a RangeCreated by a split, with a parent.
fn is_created(rec: &Record) -> bool
    ensures { result ≡ is_some (created_split (decode rec.now)) }
{
    (field::kind(rec) == 1) & (field::code(rec) == 2) & (field::flag(rec) == 1)
}

// Whether a record is a RangeDescriptor at the range and index of a RangeSplit.
pub fn uses_up(rec: &Record, split: &Record) -> bool
    ensures { result ≡ uses_up (decode rec.now) (pending_by (decode split.now)) }
{
    (field::kind(rec) == 2)
        & (field::a(rec) == field::a(split))
        & (field::b(rec) == field::b(split))
}

// The parent of the split that a record registers: kind 1 names it, kind 2 is its own.
// That it is built like `right_of` is chance: parent and right range have nothing in common.
pub fn parent_of(rec: &Record) -> u64
    ensures { result ≡ parent_by (decode rec.now) }
{
    if field::kind(rec) == 1 {
        return field::c(rec);
    }
    field::a(rec)
}

// Its right range: kind 1 is its own, and for kind 2 the RangeSplit that it uses up names it.
pub fn right_of(rec: &Record, naming: &Record) -> u64
    ensures { result ≡ right_named (decode rec.now) (decode naming.now) }
{
    if field::kind(rec) == 1 {
        return field::a(rec);
    }
    field::c(naming)
}

// The split that a record registered, where it registered one.
pub fn split_at<'a>(past: &Past<'a>, old: &Taken<'a>) -> Option<Split<'a>>
    requires { IsTaken past.now old.now }
    ensures found { AreSplit past.now result }
    ensures here { IfSome result (λ s. s.number ≡ old.now.number) }
    ensures is { let k = old.now.number - 1 in
        Indexed Known past.now → option_map split_of result ≡ registers (record_at past.now.log.now k) (hist past.now.log.now k) }
{
    let naming = past.numbered(named_by(past, old.number - 1))?;
    Some(Split {
        number: old.number,
        record: old.record,
        right: right_of(old.record, naming.record),
    })
}

// Whether a record that registers a split registers that of a parent at an index.
fn is_split(rec: &Record, parent: u64, index: u64) -> bool
    ensures { result ≡ (eqb (parent_by (decode rec.now)) parent && eqb (decode rec.now).b index) }
{
    (parent_of(rec) == parent) & (field::b(rec) == index)
}

// Whether a server is a voter of a record.
pub fn is_voter(rec: &Record, server: ServerId) -> bool
    ensures { result ≡ any_of (λ v. eqb v server.0) (decode rec.now).voters }
{
    (0..field::voter_count(rec)).any(|i| field::voter(rec, i) == server.0)
}

// The split of a parent at an index, where it is registered as of the first top records.
pub fn split_of<'a>(past: &Past<'a>, top: usize, parent: u64, index: u64) -> Option<Split<'a>>
    requires { top ≤ past.now.count }
    ensures found { AreSplit past.now result }
    ensures within { number_by result ≤ top }
    ensures latest { Indexed Known past.now → number_by result ≡ split_number parent index (hist past.now.log.now top) }
{
    let found = split_chain(past, parent, index).find(|old| (old.number <= top)
        & is_split(old.record, parent, index))?;
    split_at(past, &found)
}

// The number of the record that names the right range of the split that a record names: its own, or that of its node's
// pending RangeSplit. `last` is the node's latest record.
fn names(past: &Past, rec: &Record, last: usize) -> Option<usize>
    requires { last ≤ past.now.count }
    ensures within { IfSome result (λ k. k ≤ past.now.count + 1) }
    ensures names { Indexed Known past.now → (node : ℕ) → last ≡ latest_by node (taken past.now)
        → result ≡ found_at (names_number node (decode rec.now) (taken past.now)) }
{
    if is_created(rec) {
        return Some(past.count + 1);
    }
    pending_of(past, last)
        .filter(|split| uses_up(rec, split.record))
        .map(|split| split.number)
}

// The number of the record that names the right range of the split that a record registers, where it registers one. The Rust's
// `register`.
pub fn registers(past: &Past, rec: &Record, last: usize) -> Option<usize>
    requires { last ≤ past.now.count }
    ensures within { IfSome result (λ k. k ≤ past.now.count + 1) }
    ensures names { Indexed Known past.now → (node : NodeId) → (decode rec.now).node ≡ Some node → last ≡ latest_by node.0 (taken past.now)
        → result ≡ found_at (named_number (decode rec.now) (taken past.now)) }
{
    let named = names(past, rec, last)?;
    if split_of(past, past.count, parent_of(rec), field::b(rec)).is_some() {
        return None;
    }
    Some(named)
}
