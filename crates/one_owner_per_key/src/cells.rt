// The readers of this crate's columns: the chain of a node and a range, and that of a node, from the latest record down; and the
// two cells of a record, its node's latest end and the list of the ranges that its node newly held, from the latest to the
// first. Whatever a column holds, the answer is no later than what it is read at.
ghost use Rattle.std.specs.Prelude.{◌≡◌, ◌*◌, ◌≤◌, ◌<◌, length};
ghost use Rattle.history.specs.Buckets.{bucket_by, bucket_by_two};
ghost use Rattle.history.specs.Pasts.{Begins};
ghost use Rattle.history.specs.Places.{hold_heads, hold_links, node_heads, node_links};
ghost use Rattle.one_owner_per_key.specs.Columns.{end_in, newest_in, before_in};

use history::bucket::{bucket_by, bucket_by_two};
use history::chain::no_later;
use history::past::Past;
use history::place::{ENDED_AT, HOLD_HEADS, HOLD_LINKS, NEWLY_HELD, NODE_HEADS, NODE_LINKS};
use history::walk::Chain;
use record::named::NodeId;

// The bucket of a node, and that of a node and a range.
pub fn node_bucket(cap: usize, node: NodeId) -> usize
    requires { (0 < cap) × (cap ≤ 4096) }
    ensures { (result ≡ bucket_by cap node.0) × (result < cap) }
{
    bucket_by(cap, u64::from(node.0))
}

pub fn hold_bucket(cap: usize, node: NodeId, range: u64) -> usize
    requires { (0 < cap) × (cap ≤ 4096) }
    ensures { (result ≡ bucket_by_two cap node.0 range) × (result < cap) }
{
    bucket_by_two(cap, u64::from(node.0), range)
}

// The records chained by a node and a range, from the newest on, and those of a node.
pub fn hold_chain<'a>(past: &Past<'a>, node: NodeId, range: u64) -> Chain<'a>
    ensures { Begins past.now hold_heads hold_links (bucket_by_two past.now.cap node.0 range) result }
{
    past.chain(HOLD_HEADS, HOLD_LINKS, hold_bucket(past.cap, node, range))
}

pub fn node_chain<'a>(past: &Past<'a>, node: NodeId) -> Chain<'a>
    ensures { Begins past.now node_heads node_links (bucket_by past.now.cap node.0) result }
{
    past.chain(NODE_HEADS, NODE_LINKS, node_bucket(past.cap, node))
}

// The number of a node's latest crash or refusal, read at its latest record; 0, the beginning before any record, where there is none.
pub fn end_by(past: &Past, last: usize) -> usize
    requires { last ≤ past.now.cap }
    ensures { (result ≤ last) × (result ≡ end_in past.now.work.now past.now.cap last) }
{
    past.number_as_of(ENDED_AT, last)
}

// The number of the latest record before this one at which its node newly held a range, 0 where there is none: as the words hold it.
// A word has no `From` into an index: `as` is proved to lose nothing.
// The work area alone is asked for: what stands there is read without the log.
pub fn newly_before(work: &[u64], cap: usize, k: usize) -> usize
    requires { (32 * cap ≤ length work.now) × ((0 < k) × ((k ≤ cap) × (cap ≤ 4096))) }
    ensures { (result < k) × (result ≡ before_in work.now cap k) }
{
    no_later((work[NEWLY_HELD * cap + (k - 1)] / 2) as usize, k - 1)
}

// The number of the latest record up to this one at which its node newly held a range, 0 where there is none.
// `last` too is 0 for the beginning before any record, of which there is no word.
pub fn latest_newly(work: &[u64], cap: usize, last: usize) -> usize
    requires { (32 * cap ≤ length work.now) × ((last ≤ cap) × (cap ≤ 4096)) }
    ensures { (result ≤ last) × (result ≡ newest_in work.now cap last) }
{
    if last == 0 {
        0
    } else if work[NEWLY_HELD * cap + (last - 1)] % 2 == 1 {
        last
    } else {
        newly_before(work, cap, last)
    }
}
