// What a node owes: for each registered split the latest record at which the node came to owe its right range, against
// the latest that cancelled it.
// Kinds and sub-codes are numbers, as the project's scope numbers them and the definitions speak of them.
ghost use Rattle.std.specs.Prelude.{◌≡◌, not, ◌&&◌, ◌-◌, ◌≤◌, eqb, leb};
ghost use Rattle.record.specs.Records.{decode};
ghost use Rattle.rules.specs.History.{is_by};
ghost use Rattle.history.specs.Logs.{record_at, hist};
ghost use Rattle.history.specs.Pasts.{taken, Indexed, IsTaken, IsFound, number_of};
ghost use Rattle.one_owner_per_key.specs.Numbers.{latest_number, latest_by};
ghost use Rattle.splits.specs.Numbers.{refused_number};
ghost use Rattle.splits.specs.Columns.{Known};
ghost use Rattle.splits.specs.Walk.{taken_of};
ghost use Rattle.debts.specs.Walk.{cancel_number, asks_kind, asks, applying, comes, above, reached, has_part, applied_first, owes_first, owes_split};
ghost use Rattle.splits.specs.Splits.{parent_by};

use history::past::Past;
use history::walk::Taken;
use one_owner_per_key::cells::hold_chain;
use one_owner_per_key::held::{is_by, latest_of};
use record::named::NodeId;
use record::{Record, field};
use splits::cells::{is_restated_at, refused_by, restatement_by, server_at, server_by};
use splits::split::{Split, has_taken, is_voter, parent_of};

// Which records of a node and a range are looked for: a RangeRemoved, a RangeSplit at an index, a RangeDescriptor that
// records an index, any of the kinds that can apply a split.
// Each with its number is a question, no option; and a closure could not be required to be called only at records taken.
#[derive(Clone, Copy)]
pub enum Asked {
    Removed,
    Traced(u64),
    Recording,
    Applying,
}

// Whether a record is of the kind looked for; restated: whether its node is.
fn is_asked(rec: &Record, restated: bool, asked: Asked) -> bool
    ensures { result ≡ asks_kind asked (decode rec.now) restated }
{
    let kind = field::kind(rec);
    match asked {
        Asked::Removed => kind == 9,
        Asked::Traced(index) => (kind == 7) & (field::b(rec) == index),
        Asked::Recording => (kind == 2) & !restated,
        Asked::Applying => (kind == 2) | (kind == 7) | has_taken(rec),
    }
}

// Whether a record is one of a node and a range that is looked for.
#[tactic(auto, using(crate::proofs::Walks::asks_test))]
fn is_asked_of(past: &Past, old: &Taken, node: NodeId, range: u64, asked: Asked) -> bool
    requires { IsTaken past.now old.now }
    ensures { let k = old.now.number - 1 in
        Indexed Known past.now → result ≡ asks asked node.0 range (record_at past.now.log.now k) (hist past.now.log.now k) }
{
    is_by(old.record, node)
        && field::a(old.record) == range
        && is_asked(old.record, is_restated_at(past, old), asked)
}

// The latest such record of the first top, where its number is above a floor.
pub fn latest_asked<'a>(
    past: &Past<'a>,
    top: usize,
    floor: usize,
    node: NodeId,
    range: u64,
    asked: Asked,
) -> Option<Taken<'a>>
    requires { top ≤ past.now.count }
    ensures found { IsFound past.now result }
    ensures within { number_of result ≤ top }
    ensures latest { Indexed Known past.now → number_of result ≡ above floor (latest_number (asks asked node.0 range) (hist past.now.log.now top)) }
{
    for old in hold_chain(past, node, range) {
        if old.number <= floor {
            return None;
        }
        if old.number <= top && is_asked_of(past, &old, node, range, asked) {
            return Some(old);
        }
    }
    None
}

// Whether a record applies a split at an index; restated: whether its node is.
fn is_applying(rec: &Record, restated: bool, index: u64) -> bool
    ensures { result ≡ applying index (decode rec.now) restated }
{
    let kind = field::kind(rec);
    (((kind == 7) | has_taken(rec)) & (field::b(rec) == index))
        | ((kind == 2) & !restated & (index <= field::c(rec)))
}

// Whether a node comes to owe at a record by the split that another record registered.
#[tactic(auto, using(crate::proofs::Walks::comes_test))]
fn is_coming(past: &Past, old: &Taken, node: NodeId, split: &Record) -> bool
    requires { IsTaken past.now old.now }
    ensures { let k = old.now.number - 1 in let s = decode split.now in
        Indexed Known past.now → result ≡ comes node.0 (parent_by s) s.b s.voters (record_at past.now.log.now k) (hist past.now.log.now k) }
{
    is_by(old.record, node)
        && field::a(old.record) == parent_of(split)
        && is_applying(old.record, is_restated_at(past, old), field::b(split))
        && is_voter(split, server_at(past, old))
}

// The latest record above a floor at which a node comes to owe by its own application of the split that a record registered.
// Not one with `latest_asked`: what the two ask of a record needs it to be one taken, which a closure's contract would have to ask again.
fn latest_coming<'a>(
    past: &Past<'a>,
    floor: usize,
    node: NodeId,
    split: &Record,
) -> Option<Taken<'a>>
    ensures found { IsFound past.now result }
    ensures latest { let s = decode split.now in
        Indexed Known past.now → number_of result ≡ above floor (latest_number (comes node.0 (parent_by s) s.b s.voters) (taken past.now)) }
{
    for old in hold_chain(past, node, parent_of(split)) {
        if old.number <= floor {
            return None;
        }
        if is_coming(past, &old, node, split) {
            return Some(old);
        }
    }
    None
}

// The number of the latest record that cancels what a node owes of a right range: its RangeRemoved, or the node's refusal.
#[tactic(auto, using(crate::proofs::Comings::cancel_found))]
pub fn cancel_of(past: &Past, node: NodeId, right: u64, refused: usize) -> usize
    ensures { Indexed Known past.now → refused ≡ refused_number node.0 (taken past.now) → result ≡ cancel_number node.0 right (taken past.now) }
{
    latest_asked(past, past.count, refused, node, right, Asked::Removed).map_or(
        refused,
        |removed| removed.number,
    )
}

// Whether the index that a node recorded for a range reaches an index; refused: its latest refusal as of the first top records.
#[tactic(auto, using(crate::proofs::Comings::reached_found))]
pub fn is_reached(
    past: &Past,
    top: usize,
    refused: usize,
    node: NodeId,
    range: u64,
    index: u64,
) -> bool
    requires { top ≤ past.now.count }
    ensures { Indexed Known past.now → refused ≡ refused_number node.0 (hist past.now.log.now top) → result ≡ reached past.now.log.now top node.0 range index }
{
    latest_asked(past, top, refused, node, range, Asked::Recording).is_some_and(|recording| index
        <= field::c(recording.record))
}

// Whether a record is its node's own RangeDescriptor that has applied the split it registers; restated: whether the node is.
fn is_reaching(rec: &Record, node: NodeId, restated: bool) -> bool
    ensures { result ≡ (is_by node.0 (decode rec.now) && eqb (decode rec.now).kind 2 && not restated && leb (decode rec.now).b (decode rec.now).c) }
{
    is_by(rec, node) & (field::kind(rec) == 2) & !restated & (field::b(rec) <= field::c(rec))
}

// Whether a node has a part in the split that a record registers, by the first top records: the record is its own, or it
// has one of the parent that can apply a split. Without a part it owes nothing by that split, and one short chain tells.
#[tactic(auto, using(crate::proofs::Parts::part_own, crate::proofs::Parts::part_found))]
#[inline(always)]
pub fn has_part(past: &Past, top: usize, node: NodeId, rec: &Record) -> bool
    requires { top ≤ past.now.count }
    ensures { Indexed Known past.now → result ≡ has_part past.now.log.now top node.0 (decode rec.now) }
{
    is_by(rec, node) || latest_asked(past, top, 0, node, parent_of(rec), Asked::Applying).is_some()
}

// Whether a node has applied the split that a record registers by the first top records, or applies it there.
fn is_applied_first(past: &Past, top: usize, node: NodeId, last: usize, rec: &Record) -> bool
    requires { (top ≤ past.now.count) × (last ≤ top) }
    ensures { Indexed Known past.now → last ≡ latest_by node.0 (hist past.now.log.now top) →
        result ≡ applied_first past.now.log.now top node.0 (decode rec.now) }
{
    let refused = refused_by(past, last);
    let parent = parent_of(rec);
    let index = field::b(rec);
    is_reached(past, top, refused, node, parent, index)
        || latest_asked(past, top, refused, node, parent, Asked::Traced(index)).is_some()
        || is_reaching(rec, node, restatement_by(past, last).is_some())
}

// Whether a node comes to owe where a record registers a split after the first top records.
#[tactic(auto, using(crate::proofs::Parts::first_away, crate::proofs::Comings::owes_first_cases, splits::proofs::States::server_is))]
pub fn owes_first(past: &Past, top: usize, node: NodeId, rec: &Record) -> bool
    requires { top ≤ past.now.count }
    ensures { Indexed Known past.now → result ≡ owes_first past.now.log.now top node.0 (decode rec.now) }
{
    if !has_part(past, top, node, rec) {
        return false;
    }
    let last = latest_of(past, top, node);
    is_applied_first(past, top, node, last, rec) && is_voter(rec, server_by(past, last, node))
}

// Whether a node owes by a split; cancel: the latest record that cancels its right range.
pub fn owes_by(past: &Past, split: &Split, node: NodeId, cancel: usize) -> bool
    requires { IsTaken past.now (taken_of split.now) }
    ensures { Indexed Known past.now → result ≡ owes_split past.now.log.now past.now.count node.0 (split.now.number - 1) cancel }
{
    latest_coming(past, cancel.max(split.number), node, split.record).is_some()
        || (cancel < split.number && owes_first(past, split.number - 1, node, split.record))
}
