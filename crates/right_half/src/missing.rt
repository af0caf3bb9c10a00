// The lowest right range that a node owes and does not hold: over the registered splits, the latest first.
ghost use Rattle.std.specs.Prelude.{◌≡◌, cond, map, ◌-◌};
ghost use Rattle.rules.specs.History.{lower, lowest_of};
ghost use Rattle.rules.specs.RightHalf.{registered, is_missing};
ghost use Rattle.one_owner_per_key.specs.Numbers.{latest_end};
ghost use Rattle.splits.specs.Numbers.{refused_number};
ghost use Rattle.splits.specs.Columns.{Known};
ghost use Rattle.splits.specs.Walk.{taken_of};
ghost use Rattle.right_half.specs.Answers.{lacks_split};
ghost use Rattle.one_owner_per_key.specs.Answers.{is_below};
ghost use Rattle.history.specs.Pasts.{taken, Indexed, IsTaken};

use debts::owed::{cancel_of, has_part, owes_by};
use history::past::Past;
use one_owner_per_key::cells::end_by;
use one_owner_per_key::held::{held_after, latest_of};
use record::named::NodeId;
use splits::cells::refused_by;
use splits::split::Split;
use splits::walk::Splits;

// Whether a range is below the lowest so far.
pub fn is_below(right: u64, best: Option<u64>) -> bool
    ensures { result ≡ is_below right best }
{
    best.is_none_or(|lowest| right < lowest)
}

// Whether a node lacks the right range of a split; ended: its latest crash or refusal, refused: its latest refusal. The cheap
// tests come first: most splits are of ranges that the node holds, or has no part in.
fn is_lacking(past: &Past, node: NodeId, ended: usize, refused: usize, split: &Split) -> bool
    requires { IsTaken past.now (taken_of split.now) }
    ensures { Indexed Known past.now → ended ≡ latest_end node.0 (taken past.now) → refused ≡ refused_number node.0 (taken past.now)
        → result ≡ lacks_split past.now.log.now past.now.count node.0 (split.now.number - 1) split.now.right }
{
    if held_after(past, past.count, node, split.right, ended).is_some() {
        return false;
    }
    if !has_part(past, past.count, node, split.record) {
        return false;
    }
    let cancel = cancel_of(past, node, split.right, refused);
    owes_by(past, split, node, cancel)
}

// The lowest right range that a node owes and does not hold. The Rust's `owed_and_missing`.
pub fn lowest_missing(past: &Past, node: NodeId) -> Option<u64>
    ensures { Indexed Known past.now → result ≡ lowest_of (λ n. n) (is_missing node.0 (taken past.now)) (map (λ s. s.right) (registered (taken past.now))) }
{
    let last = latest_of(past, past.count, node);
    let ended = end_by(past, last);
    let refused = refused_by(past, last);
    let mut best = None;
    for split in Splits::of(past, past.count) {
        if is_below(split.right, best) && is_lacking(past, node, ended, refused, &split) {
            best = Some(split.right);
        }
    }
    best
}
