// The judge of a trace, by value: opening, pushing, previews and commits, reports, look-ups and a whole trace.
#![tactic(auto)]

pub mod answer;
pub mod commit;
pub mod host;
pub mod lookup;
pub mod opening;
pub mod preview;
pub mod push;
pub mod state;
pub mod ticket;
pub mod trace;
