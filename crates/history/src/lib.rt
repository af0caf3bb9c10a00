// The log as a history of records, and the work area as columns and chains. Every function is safe and ends whatever
// the log and the work area hold; what it says of the history holds where the work area is what the history says.
#![tactic(auto)]

pub mod bucket;
pub mod chain;
pub mod held;
pub mod log;
pub mod past;
pub mod place;
pub mod span;
pub mod walk;
