// The 32 columns of the work area by name: word k of column c is at c * cap + k. The definitions beside them are those of
// `specs/Places`, which say what each holds.

// `Descriptors`: the applied indexes, the standing values, the statements, the first values of a generation, the counts.
pub const APPLIED_HEADS: usize = 0;

pub const APPLIED_LINKS: usize = 1;

pub const STANDING_HEADS: usize = 2;

pub const STANDING_LINKS: usize = 3;

pub const STATED_HEADS: usize = 4;

pub const STATED_LINKS: usize = 5;

pub const GENERATION_HEADS: usize = 6;

pub const GENERATION_LINKS: usize = 7;

pub const COUNTS: usize = 8;

// The first grants and the writes that count, which `IdsUnique` and `GenerationsRise` share.
pub const FIRST_HEADS: usize = 9;

pub const FIRST_LINKS: usize = 10;

// `GenerationsRise`: the writes of a key, and the generation of each.
pub const KEY_HEADS: usize = 11;

pub const KEY_LINKS: usize = 12;

pub const WRITTEN_AT: usize = 13;

// `IdsUnique`: the latest block so far, and the greatest last so far.
pub const BLOCK_LINKS: usize = 14;

pub const GREATEST_LAST: usize = 15;

// `OneOwnerPerKey`: what says whether a node holds a range; a node's records; what a record newly holds, and a node's latest end.
pub const HOLD_HEADS: usize = 16;

pub const HOLD_LINKS: usize = 17;

pub const NODE_HEADS: usize = 18;

pub const NODE_LINKS: usize = 19;

pub const NEWLY_HELD: usize = 20;

pub const ENDED_AT: usize = 21;

// The right half's clause: a node as of its record; what a record registers; the splits and the recorded indexes.
pub const SERVER_AT: usize = 22;

pub const RESTATED_AT: usize = 23;

pub const REFUSED_AT: usize = 24;

pub const PENDING_AT: usize = 25;

pub const REGISTERED_BY: usize = 26;

pub const SPLIT_HEADS: usize = 28;

pub const SPLIT_LINKS: usize = 29;

pub const RECORDED_HEADS: usize = 30;

pub const RECORDED_LINKS: usize = 31;

// `MetaNeverGoesBack`: the latest name so far, with its mark.
pub const LATEST_NAME: usize = 27;
