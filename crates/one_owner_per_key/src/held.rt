// What a node holds: the latest record of kinds 1, 2 and 9 of the node and the range, against the node's latest crash
// or refusal. Look-backs are as of the first `top` of the records taken.
// Kinds and sub-codes are numbers, as the project's scope numbers them and the definitions speak of them.
ghost use Rattle.std.specs.Prelude.{◌≡◌, ◌≤◌};
ghost use Rattle.record.specs.Records.{decode};
ghost use Rattle.rules.specs.History.{is_by};
ghost use Rattle.rules.specs.OneOwnerPerKey.{is_holding};
ghost use Rattle.history.specs.Logs.{hist};
ghost use Rattle.history.specs.Pasts.{Indexed, IsFound, number_of};
ghost use Rattle.one_owner_per_key.specs.Numbers.{latest_by, latest_end, says_hold, latest_hold, hold_number};
ghost use Rattle.one_owner_per_key.specs.Columns.{OwnersIndexed};

use crate::cells::{end_by, hold_chain, node_chain};
use history::past::Past;
use history::walk::Taken;
use record::named::NodeId;
use record::{Record, field};

// Whether a record is marked with a node.
pub fn is_by(rec: &Record, node: NodeId) -> bool
    ensures { result ≡ is_by node.0 (decode rec.now) }
{
    field::node(rec) == Some(node)
}

// Whether a record makes its node hold its range: kinds 1 and 2.
pub fn is_holding(rec: &Record) -> bool
    ensures { result ≡ is_holding (decode rec.now) }
{
    matches!(field::kind(rec), 1 | 2)
}

// Whether a record says that a node holds a range, or that it does no longer.
fn says_hold(rec: &Record, node: NodeId, range: u64) -> bool
    ensures { result ≡ says_hold node.0 range (decode rec.now) }
{
    is_by(rec, node) & (is_holding(rec) | (field::kind(rec) == 9)) & (field::a(rec) == range)
}

// The number of a node's latest record, 0 where it has none: its cells are read as of there.
pub fn latest_of(past: &Past, top: usize, node: NodeId) -> usize
    requires { top ≤ past.now.count }
    ensures within { result ≤ top }
    ensures latest { Indexed OwnersIndexed past.now → result ≡ latest_by node.0 (hist past.now.log.now top) }
{
    node_chain(past, node)
        .find(|old| (old.number <= top) & is_by(old.record, node))
        .map_or(0, |last| last.number)
}

// The latest record of kinds 1, 2 and 9 of a node and a range.
fn hold_of<'a>(past: &Past<'a>, top: usize, node: NodeId, range: u64) -> Option<Taken<'a>>
    requires { top ≤ past.now.count }
    ensures found { IsFound past.now result }
    ensures within { number_of result ≤ top }
    ensures latest { Indexed OwnersIndexed past.now → number_of result ≡ latest_hold node.0 range (hist past.now.log.now top) }
{
    hold_chain(past, node, range).find(|old| (old.number <= top)
        & says_hold(old.record, node, range))
}

// The record over whose span a node holds a range: the latest that says so, if that is a kind 1 or 2 and later than the
// node's latest end.
pub fn held_after<'a>(
    past: &Past<'a>,
    top: usize,
    node: NodeId,
    range: u64,
    ended: usize,
) -> Option<Taken<'a>>
    requires { top ≤ past.now.count }
    ensures found { IsFound past.now result }
    ensures within { number_of result ≤ top }
    ensures held { Indexed OwnersIndexed past.now → ended ≡ latest_end node.0 (hist past.now.log.now top) → number_of result ≡ hold_number node.0 range (hist past.now.log.now top) }
{
    hold_of(past, top, node, range).filter(|hold| (ended < hold.number) & is_holding(hold.record))
}

// The record over whose span a node holds a range, as of the first top records.
pub fn held_by<'a>(past: &Past<'a>, top: usize, node: NodeId, range: u64) -> Option<Taken<'a>>
    requires { top ≤ past.now.count }
    ensures found { IsFound past.now result }
    ensures within { number_of result ≤ top }
    ensures held { Indexed OwnersIndexed past.now → number_of result ≡ hold_number node.0 range (hist past.now.log.now top) }
{
    let ended = end_by(past, latest_of(past, top, node));
    held_after(past, top, node, range, ended)
}
