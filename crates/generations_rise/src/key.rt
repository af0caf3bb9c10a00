// A key's bucket, by its length and its last eight bytes.
ghost use Rattle.std.specs.Prelude.{◌≡◌, ◌≤◌, ◌<◌};
ghost use Rattle.record.specs.Keys.{key_in};
ghost use Rattle.generations_rise.specs.Columns.{key_number, bucket_by_key};

use history::bucket::bucket_by_two;
use record::key::key;

// The last eight bytes of a key as a number.
fn key_number(k: &[u8]) -> u64
    ensures { result ≡ key_number k.now }
{
    k[k.len().saturating_sub(8)..].iter().fold(
        0,
        |n, byte| n % 0x100_0000_0000_0000 * 256 + u64::from(*byte),
    )
}

// The bucket of the key in a place.
#[tactic(auto, unfolding(crate::specs::Columns::bucket_by_key))]
pub fn bucket_by_key(cap: usize, place: &[u8]) -> usize
    requires { (0 < cap) × (cap ≤ 4096) }
    ensures { (result ≡ bucket_by_key cap (key_in place.now)) × (result < cap) }
{
    let k = key(place);
    // A length has no `From` into a word: `as` is proved to lose nothing.
    bucket_by_two(cap, k.len() as u64, key_number(k))
}
