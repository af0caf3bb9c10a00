// Whether the unused places of a tally are zero. Here, as in `place` and `entry`, a fold by `&` goes on to the end: no branch asks what the
// tally holds.
ghost use Rattle.std.specs.Prelude.{◌≡◌, ◌*◌, ◌≤◌, length};
ghost use Rattle.tally.specs.Stored.{clear_from};
ghost use Rattle.tally.specs.Entries.{width, tally_size, unused_clear};

use crate::count::read_count;
use crate::place::{PLACES, RECORDS, used_places};

// Whether the counts from one place up to another are zero.
fn clear_from(tally: &[u8], from: usize, to: usize) -> bool
    requires { (from ≤ to) × (width * to ≤ length tally.now) }
    ensures { result ≡ clear_from width tally.now from to }
{
    (from..to).fold(true, |clear, i| clear & (read_count(tally, i) == 0))
}

// Record by record: the places after its used ones.
pub(crate) fn unused_clear(tally: &[u8]) -> bool
    requires { length tally.now ≡ tally_size }
    ensures { result ≡ unused_clear tally.now }
{
    (0..RECORDS).fold(true, |clear, k| {
        let from = PLACES * k + used_places(k);
        clear & clear_from(tally, from, PLACES * k + PLACES)
    })
}
