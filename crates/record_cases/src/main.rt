// Hand-made records: each kind's, each refusal's and each boundary's of document 01's "Records", with the refusal's number,
// or 0 where the form is sound. The file stdout is written from the document.
#![tactic(auto)]

use form::{number_of, record_of};
use record::limits::RECORD_SIZE;
use std::fmt::Display;
use std::io;

// A record made by hand: one of zeros, changed place by place.
#[derive(Clone, Copy)]
struct Sample {
    bytes: [u8; RECORD_SIZE],
}

impl Sample {
    // The record with one byte changed.
    fn with(mut self, at: usize, byte: u8) -> Self {
        if let Some(place) = self.bytes.get_mut(at) {
            *place = byte;
        }
        self
    }

    // The record with the first and the last byte of a stretch at their largest.
    fn with_ends(self, first: usize, last: usize) -> Self {
        self.with(first, 255).with(last, 255)
    }

    // The record with the longest key at a place.
    fn with_key(self, place: u16) -> Self {
        let at = usize::from(place);
        self.with(at, 31).with_ends(at + 1, at + 31)
    }

    // The record with the longest key as the start of a span, and as its end too.
    fn with_start(self, span: u8) -> Self {
        self.with_key(112 + 64 * u16::from(span))
    }

    fn with_span(self, span: u8) -> Self {
        self.with_start(span).with_key(144 + 64 * u16::from(span))
    }

    // The record with five voters.
    fn with_voters(self) -> Self {
        self.with(48, 5).with_ends(56, 95)
    }
}

const ZEROS: Sample = Sample {
    bytes: [0; RECORD_SIZE],
};

// A kind's shortest record: a sub-code and a span where the kind must have one, and all else zero.
fn bare(kind: u8) -> Sample {
    let sample = ZEROS.with(0, kind);
    match kind {
        1..=2 => sample.with(2, 1).with(49, 1),
        3 => sample.with(2, 1),
        12 => sample.with(49, 1),
        _ => sample,
    }
}

// A kind's fullest record: a marked node, the last sub-code, the flag, and every place that it uses.
fn full(kind: u8) -> Sample {
    let sample = bare(kind).with(1, 1).with_ends(4, 7);
    match kind {
        1 => sample
            .with(2, 3)
            .with(3, 1)
            .with_ends(8, 39)
            .with_ends(24, 31)
            .with_voters()
            .with_span(0),
        2 => sample
            .with(2, 3)
            .with_ends(8, 39)
            .with_voters()
            .with_span(0),
        3 => sample.with(2, 7).with(49, 1).with_ends(8, 23).with_start(0),
        4 | 7 => sample.with_ends(8, 31),
        8 => sample
            .with(49, 4)
            .with_span(0)
            .with_span(1)
            .with_span(2)
            .with_span(3),
        9 => sample.with_ends(8, 15),
        11 => sample.with_ends(8, 47),
        12 => sample
            .with(3, 1)
            .with(49, 2)
            .with_ends(8, 23)
            .with_ends(32, 39)
            .with_voters()
            .with_span(0)
            .with_span(1),
        _ => sample,
    }
}

// The refusal that the form of some bytes draws, after what stands on the line.
fn tell(rt: &impl Print, bytes: &[u8]) -> io::Result<()> {
    let number = number_of(record_of(bytes));
    print!(rt; " {number}")
}

// A case on a line of its own.
fn show(rt: &impl Print, name: &str, sample: Sample) -> io::Result<()> {
    print!(rt; "{name}")?;
    tell(rt, &sample.bytes)?;
    println!(rt)
}

// The values of a line's cases, after the line's name.
fn list(rt: &impl Print, values: &[u8]) -> io::Result<()> {
    for value in values {
        print!(rt; " {value}")?;
    }
    print!(rt; ":")
}

// A line of cases: each of these values at a place of a record.
fn with_values(
    rt: &impl Print,
    name: impl Display + Drop,
    sample: Sample,
    at: usize,
    values: &[u8],
) -> io::Result<()> {
    print!(rt; "{name}")?;
    list(rt, values)?;
    for value in values {
        tell(rt, &sample.with(at, *value).bytes)?;
    }
    println!(rt)
}

// A line of cases: a 1 at each of these places of a record.
fn with_ones(
    rt: &impl Print,
    name: impl Display + Drop,
    sample: Sample,
    places: &[usize],
) -> io::Result<()> {
    print!(rt; "{name}:")?;
    for at in places {
        tell(rt, &sample.with(*at, 1).bytes)?;
    }
    println!(rt)
}

// A kind's values: those of its sub-code, flag and counts at and beside their bounds.
fn codes(rt: &impl Print, kind: u8) -> io::Result<()> {
    let sample = bare(kind);
    let codes = format_args!("kind {kind} sub-codes");
    with_values(rt, codes, sample, 2, &[0, 1, 3, 4, 7, 8, 255])?;
    let flags = format_args!("kind {kind} flags");
    with_values(rt, flags, sample, 3, &[0, 1, 2, 255])?;
    let voters = format_args!("kind {kind} voters");
    with_values(rt, voters, sample, 48, &[0, 1, 5, 6, 7, 8, 255])?;
    let spans = format_args!("kind {kind} spans");
    with_values(rt, spans, sample, 49, &[0, 1, 2, 3, 4, 5, 255])
}

// A kind's numbers, by their first and by their last bytes.
fn numbers(rt: &impl Print, kind: u8) -> io::Result<()> {
    let sample = bare(kind);
    let first = format_args!("kind {kind} first bytes of A to E");
    with_ones(rt, first, sample, &[8, 16, 24, 32, 40])?;
    let last = format_args!("kind {kind} last bytes of A to E");
    with_ones(rt, last, sample, &[15, 23, 31, 39, 47])
}

// All lines of a kind.
fn of_kind(rt: &impl Print, kind: u8) -> io::Result<()> {
    print!(rt; "kind {kind} bare and full:")?;
    tell(rt, &bare(kind).bytes)?;
    tell(rt, &full(kind).bytes)?;
    println!(rt)?;
    codes(rt, kind)?;
    numbers(rt, kind)
}

// Lengths, on a record that is sound but for its length, and numbers that no kind has.
fn lengths(rt: &impl Print) -> io::Result<()> {
    // Memory is fixed in this program: the longest list, of which each other is a part.
    let mut long = [0u8; RECORD_SIZE + 1];
    long[0] = 5;
    print!(rt; "lengths 0 367 368 369:")?;
    for size in [0, 367, 368, 369] {
        tell(rt, &long[..size])?;
    }
    println!(rt)?;
    with_values(rt, "kinds", bare(0), 0, &[0, 13, 255])
}

fn nodes(rt: &impl Print) -> io::Result<()> {
    let plain = bare(5);
    show(rt, "mark 2", plain.with(1, 2))?;
    show(rt, "mark 255", plain.with(1, 255))?;
    show(rt, "unmarked node, first byte", plain.with(4, 1))?;
    show(rt, "unmarked node, last byte", plain.with(7, 1))?;
    show(rt, "marked node", plain.with(1, 1).with_ends(4, 7))
}

fn parents(rt: &impl Print) -> io::Result<()> {
    show(rt, "parent without the flag", full(1).with(3, 0))?;
    show(rt, "the flag without a parent", bare(1).with(3, 1))
}

// The last two voter places, with all five voters and with a count that would reach them.
fn last_places(rt: &impl Print) -> io::Result<()> {
    let five = bare(2).with(48, 5);
    show(rt, "fifth voter's last byte", five.with(95, 1))?;
    show(rt, "sixth voter of five, first byte", five.with(96, 1))?;
    show(rt, "seventh voter of five, last byte", five.with(111, 1))?;
    show(rt, "sixth voter of six", five.with(48, 6).with(96, 1))?;
    show(rt, "seventh voter of seven", five.with(48, 7).with(111, 1))
}

// Voters and spans at and past their counts.
fn past_counts(rt: &impl Print) -> io::Result<()> {
    let two = bare(2).with(48, 2);
    show(rt, "second voter's last byte", two.with(71, 1))?;
    show(rt, "third voter of two, first byte", two.with(72, 1))?;
    show(rt, "seventh voter of two, last byte", two.with(111, 1))?;
    last_places(rt)?;
    show(rt, "voter of none", bare(5).with(56, 1))?;
    let one = bare(2);
    show(rt, "second span of one, first byte", one.with(176, 1))?;
    show(rt, "fourth span of one, last byte", one.with(367, 1))?;
    let three = bare(8).with(49, 3);
    show(rt, "fourth span of three, first byte", three.with(304, 1))?;
    show(rt, "span of none", bare(8).with(112, 1))
}

// Lengths of the first and the last key.
fn key_lengths(rt: &impl Print) -> io::Result<()> {
    let four = bare(8).with(49, 4);
    with_values(rt, "first key's lengths", four, 112, &[31, 32, 255])?;
    with_values(rt, "last key's lengths", four, 336, &[31, 32, 255])
}

// Padding after a start of five bytes and after an end of thirty.
fn padding(rt: &impl Print) -> io::Result<()> {
    let span = bare(1).with(112, 5).with(144, 30);
    show(rt, "start's last byte", span.with(117, 1))?;
    show(rt, "start's first padding byte", span.with(118, 1))?;
    show(rt, "start's last padding byte", span.with(143, 1))?;
    show(rt, "end's last byte", span.with(174, 1))?;
    show(rt, "end's one padding byte", span.with(175, 1))?;
    let empty = bare(1);
    show(rt, "empty key's first padding byte", empty.with(113, 1))
}

// RaftApply's end, which is empty.
fn apply_ends(rt: &impl Print) -> io::Result<()> {
    let apply = bare(3).with(49, 1);
    show(rt, "apply's key", apply.with(112, 1).with(113, 1))?;
    show(rt, "apply's end of length 1", apply.with(144, 1))?;
    show(rt, "apply's end of length 31", apply.with(144, 31))?;
    show(rt, "apply's end of length 32", apply.with(144, 32))?;
    show(rt, "apply's end, second byte", apply.with(145, 1))?;
    show(rt, "apply's end, last byte", apply.with(175, 1))?;
    show(rt, "apply's key of no span", bare(3).with(112, 1))
}

// The refusals come in the order 1, 2, 3, 4.
fn order(rt: &impl Print) -> io::Result<()> {
    let marked = bare(5).with(1, 2).with(50, 1);
    show(rt, "kind 13, mark 2, byte 50", marked.with(0, 13))?;
    show(rt, "mark 2, byte 50", marked)?;
    print!(rt; "367 bytes of 255")?;
    tell(rt, &[255; RECORD_SIZE - 1])?;
    println!(rt)
}

fn main(rt: HostRuntime) -> io::Result<()> {
    let rt = &rt;
    for kind in 1..=12 {
        of_kind(rt, kind)?;
    }
    lengths(rt)?;
    nodes(rt)?;
    parents(rt)?;
    with_ones(rt, "bytes 50 to 55", bare(11), &[50, 51, 52, 53, 54, 55])?;
    past_counts(rt)?;
    key_lengths(rt)?;
    padding(rt)?;
    apply_ends(rt)?;
    order(rt)
}
