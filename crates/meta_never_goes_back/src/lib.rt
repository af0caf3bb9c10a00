// `MetaNeverGoesBack`: the names that meta gives to keys, and the meta check. Every function is safe and ends whatever the
// log and the work area hold; what it says of the history holds where the columns are what the history says.
#![tactic(auto)]

pub mod cells;
pub mod check;
pub mod descriptor;
pub mod fault;
pub mod names;
pub mod note;
pub mod opposed;
pub mod walk;
pub mod won;
