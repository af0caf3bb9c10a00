// `IdsUnique`: the first grants of ids, their blocks, the ids check and the look-ups. Every function is safe and ends
// whatever the log and the work area hold; what it says of the history holds where the columns are what the history says.
#![tactic(auto)]

pub mod block;
pub mod cells;
pub mod check;
pub mod grant;
pub mod list;
pub mod note;
