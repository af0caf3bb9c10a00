// The 368-byte record of a trace: its numbers and keys where they lie, and its fields.
#![tactic(auto)]

pub mod code;
pub mod copy;
pub mod field;
pub mod key;
pub mod limits;
pub mod named;
pub mod number;

// The bytes of one record.
pub type Record = [u8; limits::RECORD_SIZE];
