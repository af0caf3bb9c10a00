// The right half's clause of `OneOwnerPerKey`: the half check, over what a node owes and does not hold.
#![tactic(auto)]

pub mod check;
pub mod lacking;
pub mod missing;
