// The port of `OneOwnerPerKey`: what a node holds, and the checks overlap, install and twice. What is held is never
// stored: it is found along chains of records through the work area, by the node's latest record and its latest end.
#![tactic(auto)]

pub mod cells;
pub mod check;
pub mod group;
pub mod held;
pub mod meeting;
pub mod newly;
pub mod note;
