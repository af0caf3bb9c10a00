// The named values of a record: the numbers of nodes, ranges and servers, and the sub-codes of kinds 1, 2 and 3.

// A node's number, as the Rust's NodeId.
#[derive(Clone, Copy, PartialEq, Eq)]
pub struct NodeId(pub u32);

// A range's number, as the Rust's RangeId.
#[derive(Clone, Copy, PartialEq, Eq)]
pub struct RangeId(pub u64);

// A server's number: a node's number becomes one only through the node's latest RaftRecovered.
#[derive(Clone, Copy, PartialEq, Eq)]
pub struct ServerId(pub u64);

// What created a range: kind 1's sub-code.
#[derive(Clone, Copy, PartialEq, Eq)]
pub enum RangeCause {
    Bootstrap,
    Split,
    Snapshot,
}

// A descriptor's state: kind 2's sub-code.
#[derive(Clone, Copy, PartialEq, Eq)]
pub enum RangeState {
    Live,
    Merging,
    Subsumed,
}

// What applying an entry did: kind 3's sub-code. It is the Rust's list, in which `None` is an effect like the others.
#[derive(Clone, Copy, PartialEq, Eq)]
pub enum ApplyEffect {
    Applied,
    OutOfSpan,
    Frozen,
    Took,
    Aborted,
    Refused,
    None,
}
