// The chain of the firsts, which `IdsUnique` and `GenerationsRise` share: the records with a first grant and those with a
// write that counts. Every function is safe and ends whatever the log and the work area hold; what it says of the history
// holds where the two columns are what the history says.
#![tactic(auto)]

pub mod cells;
pub mod note;
