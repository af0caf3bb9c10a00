// A node as of its latest record: the server it is, its latest RangesRestated, its latest refusal, its pending
// RangeSplit. Each is read in a column at the node's latest record, since only a node's own records change it.
ghost use Rattle.std.specs.Prelude.{◌≡◌, ◌≤◌};
ghost use Rattle.rules.specs.RightHalf.{server_of, is_restated};
ghost use Rattle.history.specs.Logs.{hist};
ghost use Rattle.splits.specs.Columns.{Known};
ghost use Rattle.history.specs.Pasts.{Indexed};

use crate::cells::{restatement_by, server_by};
use history::past::Past;
use one_owner_per_key::held::latest_of;
use record::named::{NodeId, ServerId};

// The server that a node is, as of the first top records. The Rust's `server_of`.
pub fn server_of(past: &Past, top: usize, node: NodeId) -> ServerId
    requires { top ≤ past.now.count }
    ensures { Indexed Known past.now → result ≡ server_of node.0 (hist past.now.log.now top) }
{
    let last = latest_of(past, top, node);
    server_by(past, last, node)
}

// Whether a node is restated, as of the first top records.
pub fn is_restated(past: &Past, top: usize, node: NodeId) -> bool
    requires { top ≤ past.now.count }
    ensures { Indexed Known past.now → result ≡ is_restated node.0 (hist past.now.log.now top) }
{
    let last = latest_of(past, top, node);
    restatement_by(past, last).is_some()
}
