// The refusals of a record by its form: any list of bytes is a record, or draws 1, 2, 3 or 4, in that order.
#![tactic(auto)]

pub mod kind;

ghost use Rattle.std.specs.Prelude.{◌≡◌, ◌≤◌, IfOk, length, get_or};
ghost use Rattle.record.specs.Limits.{key_size, voter_limit, span_limit, spans_at};
ghost use Rattle.form.specs.Form.{all_zero, padding_bits, padded, length_fits, places_from, every, within, counts_fit, values_fit, numbers_clear, spans_clear, unused_clear, refusal_of, flaw_number, form_number};

use crate::kind::{Shape, Values, shape_of};
use record::Record;
use record::limits::{KEY_LIMIT, KEY_SIZE, SPAN_SIZE, SPANS_AT, VOTERS_AT};

// The first flaw in the form of a list of bytes.
#[derive(Clone, Copy, PartialEq, Eq)]
pub enum Flaw {
    Length,
    Kind,
    Value,
    Unused,
}

impl Flaw {
    // Document 01's number of a flaw. A `From` would not say whose number it is.
    pub fn number(self) -> u8
        ensures { result ≡ flaw_number self }
    {
        match self {
            Flaw::Length => 1,
            Flaw::Kind => 2,
            Flaw::Value => 3,
            Flaw::Unused => 4,
        }
    }
}

// Document 01's number of an answer, 0 where the form is sound.
pub fn number_of(form: Result<&Record, Flaw>) -> u8
    ensures { result ≡ form_number form.entry }
{
    match form {
        Ok(_) => 0,
        Err(flaw) => flaw.number(),
    }
}

// Whether every byte is zero. A fold leaves only at the end, so that the compiler takes many bytes at a time.
#[tactic(auto, using(crate::proofs::Zeros::zero_fold))]
fn all_zero(s: &[u8]) -> bool
    ensures { result ≡ all_zero s.now }
{
    s.iter().fold(0, |seen, byte| seen | *byte) == 0
}

// Whether a value is one of a kind's.
fn is_within(v: Values, n: u8) -> bool
    ensures { result ≡ within v n }
{
    (v.low <= n) & (n <= v.high)
}

// Whether the node mark, the sub-code, the flag and the counts have values of the kind.
fn counts_fit(rec: &Record, k: Shape) -> bool
    ensures { result ≡ counts_fit k rec.now }
{
    (rec[1] <= 1)
        & is_within(k.codes, rec[2])
        & is_within(k.flags, rec[3])
        & is_within(k.voters, rec[48])
        & is_within(k.spans, rec[49])
}

// Whether each of the first n keys has a length byte within the limit. Here too a fold leaves only at the end.
fn lengths_fit(rec: &Record, n: usize) -> bool
    requires { n ≤ 8 }
    ensures { result ≡ every length_fits (places_from spans_at n rec.now) }
{
    (0..n).fold(
        true,
        |fit, i| fit & (rec[SPANS_AT + KEY_SIZE * i] <= KEY_LIMIT),
    )
}

// Refusal 3: whether every value is one of the kind's.
fn values_fit(rec: &Record, k: Shape) -> bool
    requires { k.spans.high ≤ span_limit }
    ensures { result ≡ values_fit k rec.now }
{
    counts_fit(rec, k) && lengths_fit(rec, 2 * usize::from(rec[49]))
}

// Which bits of a place's bytes are padding's: none of 32 bytes, then all of 31. A key of n bytes has its own from 31 - n on.
fn padding_bits() -> [u8; 63]
    ensures { result ≡ padding_bits }
{
    let mut bits = [255; 63];
    bits[..KEY_SIZE].fill(0);
    bits
}

// Whether the key in a place is followed by zeros alone. It looks at all 32 bytes, whatever the length, with no branch: the mask and the
// loop by number are for speed.
fn is_padded(place: &[u8], bits: &[u8; 63]) -> bool
    requires { (length place.now ≡ key_size) × (bits.now ≡ padding_bits) }
    ensures { result ≡ padded place.now }
{
    let size = place[0];
    if KEY_LIMIT < size {
        return true;
    }
    let from = usize::from(KEY_LIMIT - size);
    let mut seen = 0u8;
    for i in 0..KEY_SIZE {
        seen |= place[i] & bits[from + i];
    }
    seen == 0
}

// Whether each of the first n keys is padded with zeros.
fn are_padded(rec: &Record, n: usize) -> bool
    requires { n ≤ 8 }
    ensures { result ≡ every padded (places_from spans_at n rec.now) }
{
    let bits = padding_bits();
    (0..n).fold(true, |clear, i| {
        let at = SPANS_AT + KEY_SIZE * i;
        clear & is_padded(&rec[at..at + KEY_SIZE], &bits)
    })
}

// Refusal 4, of the numbers.
fn numbers_clear(rec: &Record, k: Shape) -> bool
    ensures { result ≡ numbers_clear k rec.now }
{
    (k.numbers.a | all_zero(&rec[8..16]))
        & (k.numbers.b | all_zero(&rec[16..24]))
        & ((k.numbers.c & (!k.parent | (rec[3] == 1))) | all_zero(&rec[24..32]))
        & (k.numbers.d | all_zero(&rec[32..40]))
        & (k.numbers.e | all_zero(&rec[40..48]))
}

// Refusal 4, of the spans.
fn spans_clear(rec: &Record, k: Shape) -> bool
    requires { get_or rec.now 49 0 ≤ span_limit }
    ensures { result ≡ spans_clear k rec.now }
{
    let n = usize::from(rec[49]);
    all_zero(&rec[SPANS_AT + SPAN_SIZE * n..])
        & are_padded(rec, 2 * n)
        & (k.ends | all_zero(&rec[144..176]))
}

// Refusal 4: whether every place that the kind does not use is zero.
fn unused_clear(rec: &Record, k: Shape) -> bool
    requires { (get_or rec.now 48 0 ≤ voter_limit) × (get_or rec.now 49 0 ≤ span_limit) }
    ensures { result ≡ unused_clear k rec.now }
{
    let end = VOTERS_AT + 8 * usize::from(rec[48]);
    ((rec[1] == 1) | all_zero(&rec[4..8]))
        & numbers_clear(rec, k)
        & all_zero(&rec[50..56])
        & all_zero(&rec[end..SPANS_AT])
        & spans_clear(rec, k)
}

// Any list of bytes as the record that it is, or the first flaw in its form.
pub fn record_of(bytes: &[u8]) -> Result<&Record, Flaw>
    ensures number { form_number result ≡ refusal_of bytes.now }
    ensures whole { IfOk result (λ rec. rec.now ≡ bytes.now) }
{
    let Some(rec) = bytes.as_array() else {
        return Err(Flaw::Length);
    };
    let Some(shape) = shape_of(rec[0]) else {
        return Err(Flaw::Kind);
    };
    if !values_fit(rec, shape) {
        return Err(Flaw::Value);
    }
    if !unused_clear(rec, shape) {
        return Err(Flaw::Unused);
    }
    Ok(rec)
}
