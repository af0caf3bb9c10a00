// The judge for C and Rust hosts: numbers and slices alone, and the judge kept as words between calls.
#![tactic(auto)]

pub mod answer;
pub mod calls;
pub mod entry;
pub mod lookups;
pub mod preview;
pub mod trace;
pub mod version;
