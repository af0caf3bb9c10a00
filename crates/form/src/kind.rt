// The kinds of records: which values and which places each of the twelve uses.
// Kinds are numbers, as the project's scope numbers them and the definitions speak of them (`is_kind`): an enum would be read back into them.
ghost use Rattle.std.specs.Prelude.{◌≡◌, Some};
ghost use Rattle.form.specs.KindTable.{plain, shape_of};

use record::limits::{SPAN_LIMIT, VOTER_LIMIT};

// The values from low to high.
#[derive(Clone, Copy)]
pub struct Values {
    pub low: u8,
    pub high: u8,
}

// Which of the numbers A to E a kind uses.
#[derive(Clone, Copy)]
pub struct Numbers {
    pub a: bool,
    pub b: bool,
    pub c: bool,
    pub d: bool,
    pub e: bool,
}

// What a kind's records may have in them. It is a row of the kinds' table, two of whose columns are yes or no beside the others.
#[derive(Clone, Copy)]
pub struct Shape {
    pub codes: Values,
    pub flags: Values,
    pub voters: Values,
    pub spans: Values,
    pub numbers: Numbers,
    // C is a parent, there only with the flag.
    pub parent: bool,
    // The spans have ends.
    pub ends: bool,
}

// The voters of a kind that has them, and no value but zero for what a kind does not have.
const VOTERS: Values = Values {
    low: 0,
    high: VOTER_LIMIT,
};

const ZERO: Values = Values { low: 0, high: 0 };

// The numbers that the kinds use, by their letters.
const NONE: Numbers = Numbers {
    a: false,
    b: false,
    c: false,
    d: false,
    e: false,
};

const A: Numbers = Numbers { a: true, ..NONE };

const A_B: Numbers = Numbers { b: true, ..A };

const A_B_C: Numbers = Numbers { c: true, ..A_B };

const A_B_D: Numbers = Numbers { d: true, ..A_B };

const A_TO_D: Numbers = Numbers { d: true, ..A_B_C };

const A_TO_E: Numbers = Numbers { e: true, ..A_TO_D };

// A kind whose records have nothing but their kind and node. Spans have ends where there are any.
const BARE: Shape = Shape {
    codes: ZERO,
    flags: ZERO,
    voters: ZERO,
    spans: ZERO,
    numbers: NONE,
    parent: false,
    ends: true,
};

// 1 RangeCreated: the parent, C, with the flag.
const CREATED: Shape = Shape {
    codes: Values { low: 1, high: 3 },
    flags: Values { low: 0, high: 1 },
    voters: VOTERS,
    spans: Values { low: 1, high: 1 },
    numbers: A_TO_D,
    parent: true,
    ..BARE
};

// 2 RangeDescriptor.
const DESCRIPTOR: Shape = Shape {
    codes: Values { low: 1, high: 3 },
    voters: VOTERS,
    spans: Values { low: 1, high: 1 },
    numbers: A_TO_D,
    ..BARE
};

// 3 RaftApply: the key as the start of a span that has no end, or none.
const APPLY: Shape = Shape {
    codes: Values { low: 1, high: 7 },
    spans: Values { low: 0, high: 1 },
    numbers: A_B,
    ends: false,
    ..BARE
};

// 8 SpanInstalled.
const INSTALLED: Shape = Shape {
    spans: Values {
        low: 0,
        high: SPAN_LIMIT,
    },
    ..BARE
};

// 12 MetaApplied: the flag where it continues an event.
const META_APPLIED: Shape = Shape {
    flags: Values { low: 0, high: 1 },
    voters: VOTERS,
    spans: Values { low: 1, high: 2 },
    numbers: A_B_D,
    ..BARE
};

// A kind that uses numbers and nothing else.
fn numbered(numbers: Numbers) -> Option<Shape>
    ensures { result ≡ Some (plain numbers) }
{
    Some(Shape { numbers, ..BARE })
}

// What the kind with a number may have: decided over the kind byte, with nothing for a number that no kind has.
pub fn shape_of(kind: u8) -> Option<Shape>
    ensures { result ≡ shape_of kind }
{
    match kind {
        1 => Some(CREATED),
        2 => Some(DESCRIPTOR),
        3 => Some(APPLY),
        4 | 7 => numbered(A_B_C),
        5..=6 | 10 => numbered(NONE),
        8 => Some(INSTALLED),
        9 => numbered(A),
        11 => numbered(A_TO_E),
        12 => Some(META_APPLIED),
        _ => None,
    }
}
