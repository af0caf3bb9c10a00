// The sizes and largest counts of the record form. The code of every crate takes them from here; contracts spell them, as document
// 01 does, and the places of single fields stand where they are read, in `field` and in crate `form`.
pub const RECORD_SIZE: usize = 368;

pub const KEY_SIZE: usize = 32;

// A span's two keys.
pub const SPAN_SIZE: usize = 2 * KEY_SIZE;

pub const KEY_LIMIT: u8 = 31;

// There are places for seven voters; the last two stay zero.
pub const VOTER_LIMIT: u8 = 5;

pub const SPAN_LIMIT: u8 = 4;

pub const VOTERS_AT: usize = 56;

pub const SPANS_AT: usize = 112;
