// The readers of this crate's columns: a node as of its latest record, what a record registers, and the two chains. Whatever a
// column holds, a number that is read is no later than what it is read at. 0 stands in the lent words for the beginning before any
// record, and `numbered` makes it `None`.
ghost use Rattle.std.specs.Prelude.{◌≡◌, not, ◌+◌, ◌-◌, ◌*◌, ◌≤◌, ◌<◌, eqb, get_or};
ghost use Rattle.history.specs.Columns.{number_in};
ghost use Rattle.history.specs.Pasts.{IsTaken, IsFound, number_of, Begins};
ghost use Rattle.history.specs.Places.{server_at, restated_at, refused_at, pending_at, split_heads, split_links, recorded_heads, recorded_links};
ghost use Rattle.splits.specs.Columns.{server_in, registering_in, named_in, split_bucket, recorded_bucket};

use history::bucket::{bucket_by, bucket_by_two};
use history::chain::no_later;
use history::past::Past;
use history::place::{
    PENDING_AT, RECORDED_HEADS, RECORDED_LINKS, REFUSED_AT, REGISTERED_BY, RESTATED_AT, SERVER_AT,
    SPLIT_HEADS, SPLIT_LINKS,
};
use history::walk::{Chain, Taken};
use record::named::{NodeId, ServerId};

// The server that a node is, by its latest record; as of 0, the beginning before any record, of which there is no word, it is its own.
pub fn server_by(past: &Past, last: usize, node: NodeId) -> ServerId
    requires { last ≤ past.now.cap }
    ensures { result.0 ≡ server_in past.now.work.now past.now.cap last node.0 }
{
    if last == 0 {
        ServerId(u64::from(node.0))
    } else {
        ServerId(past.word(SERVER_AT, last - 1))
    }
}

// A node's latest RangesRestated since a crash, by its latest record.
pub fn restatement_by<'a>(past: &Past<'a>, last: usize) -> Option<Taken<'a>>
    requires { last ≤ past.now.count }
    ensures found { IsFound past.now result }
    ensures is { number_of result ≡ number_in (restated_at * past.now.cap) past.now.work.now last }
{
    past.numbered(past.number_as_of(RESTATED_AT, last))
}

// The number of a node's latest refusal, by its latest record; 0, the beginning before any record, where there is none.
pub fn refused_by(past: &Past, last: usize) -> usize
    requires { last ≤ past.now.cap }
    ensures { (result ≤ last) × (result ≡ number_in (refused_at * past.now.cap) past.now.work.now last) }
{
    past.number_as_of(REFUSED_AT, last)
}

// A node's pending RangeSplit, by its latest record.
pub fn pending_of<'a>(past: &Past<'a>, last: usize) -> Option<Taken<'a>>
    requires { last ≤ past.now.count }
    ensures found { IsFound past.now result }
    ensures is { number_of result ≡ number_in (pending_at * past.now.cap) past.now.work.now last }
{
    past.numbered(past.number_as_of(PENDING_AT, last))
}

// The server that the node of a record is, with that record.
pub fn server_at(past: &Past, old: &Taken) -> ServerId
    requires { IsTaken past.now old.now }
    ensures { result.0 ≡ get_or past.now.work.now (server_at * past.now.cap + (old.now.number - 1)) 0 }
{
    ServerId(past.word(SERVER_AT, old.number - 1))
}

// Whether that node is restated, with that record.
pub fn is_restated_at(past: &Past, old: &Taken) -> bool
    requires { IsTaken past.now old.now }
    ensures { result ≡ not (eqb (get_or past.now.work.now (restated_at * past.now.cap + (old.now.number - 1)) 0) 0) }
{
    past.word(RESTATED_AT, old.number - 1) != 0
}

// The number of the latest registering record of the first k; 0, the beginning before any record, where there is none.
// k is a length too: of the beginning of length 0 there is no word. The word becomes an index by `as`, since Rust has no `From` for it.
pub fn registering_by(past: &Past, k: usize) -> usize
    requires { k ≤ past.now.cap }
    ensures { (result ≤ k) × (result ≡ registering_in past.now.work.now past.now.cap k) }
{
    if k == 0 {
        0
    } else {
        no_later((past.word(REGISTERED_BY, k - 1) % 8192) as usize, k)
    }
}

// The number of the record that names the right range of the split that the record at a place registers.
// A word has no `From` into an index: `as` is proved to lose nothing.
pub fn named_by(past: &Past, at: usize) -> usize
    requires { at < past.now.cap }
    ensures { result ≡ named_in past.now.work.now past.now.cap at }
{
    (past.word(REGISTERED_BY, at) / 8192) as usize
}

// The records that register a split, chained by its parent and index, from the newest on.
pub fn split_chain<'a>(past: &Past<'a>, parent: u64, index: u64) -> Chain<'a>
    ensures { Begins past.now split_heads split_links (split_bucket past.now.cap parent index) result }
{
    past.chain(
        SPLIT_HEADS,
        SPLIT_LINKS,
        bucket_by_two(past.cap, parent, index),
    )
}

// The records that record an index, chained by their range, from the newest on.
pub fn recorded_chain<'a>(past: &Past<'a>, range: u64) -> Chain<'a>
    ensures { Begins past.now recorded_heads recorded_links (recorded_bucket past.now.cap range) result }
{
    past.chain(RECORDED_HEADS, RECORDED_LINKS, bucket_by(past.cap, range))
}
