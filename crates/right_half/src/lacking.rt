// The nodes that a registering finds without the right range: restated, their recorded index reaching the split, owing the
// right range, and without it at their latest RangesRestated.
ghost use Rattle.std.specs.Prelude.{◌≡◌, true, ◌-◌, ◌≤◌, Some};
ghost use Rattle.record.specs.Records.{decode};
ghost use Rattle.rules.specs.History.{is_some, lowest_of};
ghost use Rattle.rules.specs.RightHalf.{registers, is_restated, restated_with, owes, lacks, nodes_of};
ghost use Rattle.splits.specs.Numbers.{restated_number, refused_number};
ghost use Rattle.splits.specs.Columns.{Known};
ghost use Rattle.splits.specs.Walk.{split_of};
ghost use Rattle.history.specs.Pasts.{taken, Indexed};

use crate::missing::is_below;
use debts::owed::{cancel_of, is_reached, owes_by};
use history::past::Past;
use one_owner_per_key::held::{held_by, latest_of};
use record::field;
use record::named::NodeId;
use splits::cells::{recorded_chain, refused_by, restatement_by, server_by};
use splits::split::{Split, is_voter, parent_of};
use splits::walk::Splits;

// Whether a node owes a right range, by whatever split; refused: its latest refusal.
pub fn is_owed(past: &Past, node: NodeId, refused: usize, right: u64) -> bool
    ensures { Indexed Known past.now → refused ≡ refused_number node.0 (taken past.now) → result ≡ is_some (owes node.0 right (taken past.now)) }
{
    let cancel = cancel_of(past, node, right, refused);
    for split in Splits::of(past, past.count) {
        if split.right == right && owes_by(past, &split, node, cancel) {
            return true;
        }
    }
    false
}

// Whether a restated node held a range at its latest RangesRestated, which a refusal since drops.
pub fn was_held(past: &Past, node: NodeId, restated: usize, refused: usize, range: u64) -> bool
    requires { restated ≤ past.now.count }
    ensures { Indexed Known past.now → restated ≡ restated_number node.0 (taken past.now) → refused ≡ refused_number node.0 (taken past.now) → is_restated node.0 (taken past.now) ≡ true → result ≡ restated_with node.0 range (taken past.now) }
{
    refused < restated && held_by(past, restated - 1, node, range).is_some()
}

// Whether a node lacks the right range of the split that the next record registers.
pub fn lacks_at(past: &Past, node: NodeId, split: &Split) -> bool
    ensures { let x = decode split.now.record.now in
        Indexed Known past.now → registers x (taken past.now) ≡ Some (split_of split.now) → result ≡ lacks (split_of split.now) x (taken past.now) node.0 }
{
    let last = latest_of(past, past.count, node);
    let Some(restated) = restatement_by(past, last) else {
        return false;
    };
    let refused = refused_by(past, last);
    let index = field::b(split.record);
    if !is_reached(
        past,
        past.count,
        refused,
        node,
        parent_of(split.record),
        index,
    ) {
        return false;
    }
    if was_held(past, node, restated.number, refused, split.right) {
        return false;
    }
    if is_voter(split.record, server_by(past, last, node)) {
        return true;
    }
    is_owed(past, node, refused, split.right)
}

// The lowest node that lacks the right range of the split that the next record registers: among those that recorded an index of
// the parent.
pub fn lowest_lacking(past: &Past, split: &Split) -> Option<u64>
    ensures { let x = decode split.now.record.now in
        Indexed Known past.now → registers x (taken past.now) ≡ Some (split_of split.now)
        → result ≡ lowest_of (λ n. n) (lacks (split_of split.now) x (taken past.now)) (nodes_of (taken past.now)) }
{
    let mut best = None;
    for old in recorded_chain(past, parent_of(split.record)) {
        if let Some(node) = field::node(old.record) {
            let number = u64::from(node.0);
            if is_below(number, best) && lacks_at(past, node, split) {
                best = Some(number);
            }
        }
    }
    best
}
