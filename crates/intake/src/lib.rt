// The judge's core: one record, taken by numbers and slices alone. It is refused or decided upon (crate `decision`), judged by
// the checks that it concerns, noted in the work area and appended to the log: four functions, of which the first two change neither, and
// are a preview; the other two keep the record.
#![tactic(auto)]

pub mod judge;
pub mod keep;
pub mod note;
pub mod preview;
mod step;
pub mod take;
