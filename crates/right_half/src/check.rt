// half, at a Took of a registered split, at a RangesRestated and at a registering.
// Kinds and sub-codes are numbers, as the project's scope numbers them and the definitions speak of them.
ghost use Rattle.std.specs.Prelude.{◌≡◌, true, not, ◌&&◌, [], ◌∷◌, map, ◌<◌, eqb, ltb, Some};
ghost use Rattle.record.specs.declared.named.ApplyEffect.TheVariants.{Took};
ghost use Rattle.record.specs.Records.{decode};
ghost use Rattle.rules.specs.History.{is_kind, is_by, any_of, holds, lowest_of};
ghost use Rattle.rules.specs.Cases.{fault, case_of};
ghost use Rattle.rules.specs.GenerationsRise.{has_effect};
ghost use Rattle.rules.specs.OneOwnerPerKey.{has_hold};
ghost use Rattle.rules.specs.RightHalf.{Registered, server_of, registered, registers, owes, is_missing, missing_fault, registering_fault, half_at};
ghost use Rattle.splits.specs.Numbers.{split_number, named_number};
ghost use Rattle.splits.specs.Columns.{Known};
ghost use Rattle.splits.specs.Walk.{split_of, IsSplit};
ghost use Rattle.history.specs.Pasts.{taken, Indexed};

use crate::lacking::lowest_lacking;
use crate::missing::lowest_missing;
use debts::debt::debt_of;
use history::past::Past;
use one_owner_per_key::held::{held_by, latest_of};
use record::named::NodeId;
use record::{Record, field};
use rules::Fault;
use splits::split::{Split, has_taken, is_voter, parent_of, registers, right_of, split_of};
use splits::state::server_of;

// The fault of a right range that a node owes and does not hold, with its debt's parent and index. The Rust's `missing`.
fn missing_case(past: &Past, kind: u8, node: NodeId, right: u64) -> Option<Fault>
    ensures { Indexed Known past.now → (s : Registered) → owes node.0 right (taken past.now) ≡ Some s → result ≡ fault kind (node.0 ∷ s.parent ∷ s.index ∷ right ∷ []) }
{
    let debt = debt_of(past, node, right)?;
    let parent = parent_of(debt.record);
    let index = field::b(debt.record);
    Some(Fault::new(kind, &[u64::from(node.0), parent, index, right]))
}

// The case of the lowest right range that a node owes and does not hold, where there is one.
fn lowest_case(past: &Past, kind: u8, node: NodeId, lowest: Option<u64>) -> Option<Fault>
    ensures { Indexed Known past.now → lowest ≡ lowest_of (λ n. n) (is_missing node.0 (taken past.now)) (map (λ s. s.right) (registered (taken past.now))) → result ≡ missing_fault kind node.0 (taken past.now) }
{
    let right = lowest?;
    missing_case(past, kind, node, right)
}

// half of a RangesRestated: its node owes and holds with it what it did before.
fn restated_case(past: &Past, node: NodeId) -> Option<Fault>
    ensures { Indexed Known past.now → result ≡ missing_fault 2 node.0 (taken past.now) }
{
    let lowest = lowest_missing(past, node);
    lowest_case(past, 2, node, lowest)
}

// Whether the lowest so far is below a range.
fn is_above(right: u64, lowest: Option<u64>) -> bool
    ensures { result ≡ holds (λ b. ltb b right) lowest }
{
    lowest.is_some_and(|range| range < right)
}

// Whether the right range of a split is the lowest that a node owes and does not hold, where the node applies the split now;
// lowest: the lowest before that.
fn is_lowest(past: &Past, split: &Split, node: NodeId, lowest: Option<u64>) -> bool
    ensures { let x = decode split.now.record.now in
        Indexed Known past.now → result ≡ (any_of (λ v. eqb v (server_of node.0 (taken past.now)).0) x.voters
        && not (has_hold node.0 split.now.right (taken past.now)) && not (holds (λ b. ltb b split.now.right) lowest)) }
{
    if is_above(split.right, lowest) {
        return false;
    }
    if !is_voter(split.record, server_of(past, past.count, node)) {
        return false;
    }
    held_by(past, past.count, node, split.right).is_none()
}

// half of a Took of a registered split: the lowest of what the node owed before and of that split's right range.
fn taken_case(past: &Past, rec: &Record, node: NodeId, split: &Split) -> Option<Fault>
    requires { IsSplit past.now split.now }
    ensures { let x = decode rec.now in
        Indexed Known past.now → split.now.number ≡ split_number x.a x.b (taken past.now) → is_by node.0 x ≡ true → has_effect Took x ≡ true
        → result ≡ missing_fault 1 node.0 (x ∷ taken past.now) }
{
    let lowest = lowest_missing(past, node);
    if is_lowest(past, split, node, lowest) {
        let parent = field::a(rec);
        let index = field::b(rec);
        return Some(Fault::new(1, &[u64::from(node.0), parent, index, split.right]));
    }
    lowest_case(past, 1, node, lowest)
}

// half of a RaftApply.
fn applied_case(past: &Past, rec: &Record, node: NodeId) -> Option<Fault>
    ensures { Indexed Known past.now → (decode rec.now).node ≡ Some node → is_kind 3 (decode rec.now) ≡ true → result ≡ half_at (decode rec.now) (taken past.now) }
{
    if !has_taken(rec) {
        return None;
    }
    let split = split_of(past, past.count, field::a(rec), field::b(rec))?;
    taken_case(past, rec, node, &split)
}

// What half says of a record's registering: the lowest node that lacks the right range. `named` is the number of the record that
// names it: the record itself, or one taken.
fn registering_case(past: &Past, rec: &Record, named: usize) -> Option<Fault>
    ensures { let x = decode rec.now in
        Indexed Known past.now → named ≡ named_number x (taken past.now) → 0 < named
        → result ≡ case_of (registering_fault x (taken past.now)) (registers x (taken past.now)) }
{
    let naming = past.numbered(named).map_or(rec, |old| old.record);
    let split = Split {
        number: past.count + 1,
        record: rec,
        right: right_of(rec, naming),
    };
    let node = lowest_lacking(past, &split)?;
    let parent = parent_of(rec);
    let index = field::b(rec);
    Some(Fault::new(2, &[node, parent, index, split.right]))
}

// half of a record that may register: kinds 1 and 2.
fn registered_case(past: &Past, rec: &Record, node: NodeId) -> Option<Fault>
    ensures { Indexed Known past.now → (decode rec.now).node ≡ Some node → result ≡ case_of (registering_fault (decode rec.now) (taken past.now)) (registers (decode rec.now) (taken past.now)) }
{
    let last = latest_of(past, past.count, node);
    let named = registers(past, rec, last)?;
    registering_case(past, rec, named)
}

// The half check's case of a record. Records of other kinds than 1, 2, 3 and 5 cost nothing.
pub fn half(past: &Past, rec: &Record) -> Option<Fault>
    ensures { Indexed Known past.now → result ≡ half_at (decode rec.now) (taken past.now) }
{
    let node = field::node(rec)?;
    match field::kind(rec) {
        5 => restated_case(past, node),
        3 => applied_case(past, rec, node),
        1 | 2 => registered_case(past, rec, node),
        _ => None,
    }
}
