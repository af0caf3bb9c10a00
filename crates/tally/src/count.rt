// A count where it lies, by its place in the tally: read, written and raised. Here alone the code has its width.
ghost use Rattle.std.specs.Prelude.{◌≡◌, ◌+◌, ◌*◌, ◌^◌, ◌≤◌, ◌<◌, length};
ghost use Rattle.std.proofs.lemmas.List.Edits.{sets};
ghost use Rattle.record.specs.Numbers.{bytes_of};
ghost use Rattle.tally.specs.Stored.{holds, number_in};
ghost use Rattle.tally.specs.Entries.{width};

use record::number::{u32_at, write_number};

// The bytes of a count, and the most that they hold.
pub const WIDTH: usize = 4;

pub(crate) const MOST: u64 = 4_294_967_295;

// The count at a place.
#[tactic(auto, unfolding(crate::specs::Stored::number_in))]
pub(crate) fn read_count(tally: &[u8], at: usize) -> u64
    requires { width * at + width ≤ length tally.now }
    ensures { (result ≡ number_in width tally.now at) × (result < 256 ^ width) }
{
    u64::from(u32_at(tally, WIDTH * at))
}

// Writes a count to a place, least byte first.
fn write_count(tally: &mut [u8], at: usize, count: u64)
    requires { width * at + width ≤ length tally.old }
    ensures { tally.new ≡ sets tally.old (width * at) (bytes_of width count) }
{
    write_number(tally, WIDTH * at, WIDTH, count);
}

// Whether the count at a place can be raised by a number.
#[tactic(auto, using(crate::proofs::Raising::can_raise))]
pub(crate) fn can_raise(tally: &[u8], at: usize, by: u64) -> bool
    requires { width * at + width ≤ length tally.now }
    ensures { result ≡ holds width (number_in width tally.now at + by) }
{
    by <= MOST - read_count(tally, at)
}

// Raises the count at a place by a number, where it has room.
pub(crate) fn raise(tally: &mut [u8], at: usize, by: u64)
    requires { (width * at + width ≤ length tally.old) × (number_in width tally.old at + by < 256 ^ width) }
    ensures { tally.new ≡ sets tally.old (width * at) (bytes_of width (number_in width tally.old at + by)) }
{
    let count = read_count(tally, at);
    write_count(tally, at, count + by);
}
