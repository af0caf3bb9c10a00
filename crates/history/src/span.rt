// The keys of a record's spans where they lie. A span that the record does not have has empty keys.
ghost use Rattle.std.specs.Prelude.{◌≡◌, cond, [], ◌+◌, ◌*◌, ◌<◌, ◌≤◌, length, leb};
ghost use Rattle.record.specs.Keys.{key_in};
ghost use Rattle.record.specs.Numbers.{part};
ghost use Rattle.record.specs.Records.{decode};
ghost use Rattle.rules.specs.Descriptors.{span_of};

use record::Record;
use record::field::span_count;
use record::limits::{KEY_SIZE, SPAN_SIZE, SPANS_AT};

// A key of a span where it lies: from an offset in the span on. Where the record does not have the span, no bytes.
fn key_at(rec: &Record, k: usize, offset: usize) -> &[u8]
    requires { (k < 4) × (offset ≤ 32) }
    ensures { result.now ≡ cond (leb (length (decode rec.now).spans) k) [] (part (112 + 64 * k + offset) (144 + 64 * k + offset) rec.now) }
{
    if span_count(rec) <= k {
        return &rec[0..0];
    }
    let at = SPANS_AT + SPAN_SIZE * k + offset;
    &rec[at..at + KEY_SIZE]
}

// The place of a span's start.
pub fn start_of(rec: &Record, k: usize) -> &[u8]
    requires { k < 4 }
    ensures { key_in result.now ≡ (span_of k (decode rec.now)).start }
{
    key_at(rec, k, 0)
}

// The place of a span's end, which is after its start.
pub fn end_of(rec: &Record, k: usize) -> &[u8]
    requires { k < 4 }
    ensures { key_in result.now ≡ (span_of k (decode rec.now)).end }
{
    key_at(rec, k, KEY_SIZE)
}
