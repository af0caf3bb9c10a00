// `GenerationsRise`: the writes that count, a key's last one, and the generations check. Every function is safe and ends
// whatever the log and the work area hold; what it says of the history holds where the columns are what the history says.
#![tactic(auto)]

pub mod cells;
pub mod check;
pub mod key;
pub mod note;
pub mod write;
