// What the right half's clause knows of nodes and splits: as of a node's records the server it is, its marks and its pending
// RangeSplit; and which record registers a split, with its parent, index, right range and voters.
#![tactic(auto)]

pub mod cells;
pub mod note;
pub mod split;
pub mod state;
pub mod walk;
