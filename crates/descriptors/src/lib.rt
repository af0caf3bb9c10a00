// `Descriptors`: the values of ranges and their look-ups, and agreement. Every function is safe and ends whatever the log
// and the work area hold; what it says of the history holds where the columns are what the history says.
#![tactic(auto)]

pub mod cells;
pub mod check;
pub mod note;
pub mod role;
pub mod value;
