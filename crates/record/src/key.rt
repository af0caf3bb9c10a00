// Keys and voters compared where they lie. The key reader and the key comparisons are handed a key's place, the
// stretch `&record[a..b]` of 32 bytes: a length byte, then the key's bytes, zero-padded.
ghost use Rattle.std.specs.Prelude.{◌≡◌, ◌&&◌, eqb, length};
ghost use Rattle.record.specs.Keys.{key_in, key_ltb, key_eqb, list_eqb};
ghost use Rattle.record.specs.Limits.{key_size};
ghost use Rattle.record.specs.Records.{voters_in};

use crate::Record;
use crate::field::{voter, voter_count};
use crate::limits::KEY_SIZE;
use crate::number::u64_at;

// The key in a place, as a part of it: as many bytes as the length byte says, and no more than there are.
#[tactic(auto, unfolding(crate::specs::Keys::key_in))]
pub fn key(place: &[u8]) -> &[u8]
    ensures { result.now ≡ key_in place.now }
{
    let Some((size, bytes)) = place.split_first() else {
        return place;
    };
    &bytes[..bytes.len().min(usize::from(*size))]
}

// Whether the key in the place a is below the key in the place b.
#[tactic(auto, using(crate::proofs::Keys::less_is))]
pub fn key_less(a: &[u8], b: &[u8]) -> bool
    ensures { result ≡ key_ltb (key_in a.now) (key_in b.now) }
{
    key(a).cmp(&key(b)).is_lt()
}

// Whether two lists are whole places that hold the same bytes: four words each, and no branch on what they hold.
fn same_place(a: &[u8], b: &[u8]) -> bool
    ensures { result ≡ eqb (length a.now) key_size && eqb (length b.now) key_size && list_eqb a.now b.now }
{
    if a.len() != KEY_SIZE {
        return false;
    }
    if b.len() != KEY_SIZE {
        return false;
    }
    (u64_at(a, 0) == u64_at(b, 0))
        & (u64_at(a, 8) == u64_at(b, 8))
        & (u64_at(a, 16) == u64_at(b, 16))
        & (u64_at(a, 24) == u64_at(b, 24))
}

// Whether the keys in two places are the same. Places that hold the same have the same key, and that is soon seen; keys being
// padded with zeros, the rest is for keys that differ. There the `==` is that of slices, and not of the places: what stands
// behind a key in its place is no part of it.
pub fn same_key(a: &[u8], b: &[u8]) -> bool
    ensures { result ≡ key_eqb (key_in a.now) (key_in b.now) }
{
    same_place(a, b) || key(a) == key(b)
}

// Whether two records have the same voters in the same order. Number by number, as the definition compares
// them: that equal bytes are equal numbers, and others are not, would be a law that nothing else needs.
pub fn same_voters(a: &Record, b: &Record) -> bool
    ensures { result ≡ list_eqb (voters_in a.now) (voters_in b.now) }
{
    let n = voter_count(a);
    if n != voter_count(b) {
        return false;
    }
    for i in 0..n {
        if voter(a, i) != voter(b, i) {
            return false;
        }
    }
    true
}
