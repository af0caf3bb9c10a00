// What a node owes, and by which split: at which of its records it came to owe a right range, against those that cancel it.
#![tactic(auto)]

pub mod debt;
pub mod owed;
