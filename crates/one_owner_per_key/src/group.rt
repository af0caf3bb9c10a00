// The group that a span's start names: "if it has 16 bytes or more and its first 8, big-endian, are the tenant; the next 8 are the group".
ghost use Rattle.std.specs.Prelude.{◌≡◌, ◌+◌, ◌≤◌, length, eqb};
ghost use Rattle.record.specs.Keys.{key_in};
ghost use Rattle.record.specs.Numbers.{part, big_endian};
ghost use Rattle.record.specs.Records.{decode};
ghost use Rattle.rules.specs.History.{holds};
ghost use Rattle.rules.specs.OneOwnerPerKey.{group_of, is_named};

use history::span::start_of;
use record::Record;
use record::field::span_count;
use record::key::key;

// The number of eight bytes, the first counting most.
#[tactic(auto, using(crate::proofs::Spans::be_number64))]
fn big64(s: &[u8], at: usize) -> u64
    requires { at + 8 ≤ length s.now }
    ensures { result ≡ big_endian (part at (at + 8) s.now) }
{
    u64::from_be_bytes(*s[at..at + 8].as_array().unwrap())
}

// The group that the key in a place names.
pub fn group_of(place: &[u8], tenant: u64) -> Option<u64>
    ensures { result ≡ group_of tenant (key_in place.now) }
{
    let start = key(place);
    if start.len() < 16 {
        return None;
    }
    (big64(start, 0) == tenant).then(|| big64(start, 8))
}

// Whether a place's key names a range.
fn names(place: &[u8], tenant: u64, range: u64) -> bool
    ensures { result ≡ holds (λ g. eqb g range) (group_of tenant (key_in place.now)) }
{
    group_of(place, tenant) == Some(range)
}

// Whether a start in the record names a range.
pub fn is_named(rec: &Record, tenant: u64, range: u64) -> bool
    ensures { result ≡ is_named tenant (decode rec.now).spans range }
{
    (0..span_count(rec)).any(|i| names(start_of(rec, i), tenant, range))
}
