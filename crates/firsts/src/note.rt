// Entering a record into the chain of the firsts: one with a first grant by its index, one with a write that counts by its
// range and index.
ghost use Rattle.std.specs.Prelude.{◌≡◌, ◌*◌, ◌≤◌, ◌<◌, length};
ghost use Rattle.record.specs.Records.{decode};
ghost use Rattle.firsts.specs.Columns.{first_grant, first_write, FirstEntered};

use history::bucket::{bucket_by, bucket_by_two};
use history::chain::enter;
use history::place::{FIRST_HEADS, FIRST_LINKS};
use record::Record;
use record::field::{a, b};

// Enters a record with a first grant, after the count records taken. The bucket is all that tells it from `enter_write`, and the whole of each.
pub fn enter_grant(work: &mut [u64], count: usize, cap: usize, rec: &Record)
    requires { (32 * cap ≤ length work.old) × ((count < cap) × (cap ≤ 4096)) }
    ensures { FirstEntered first_grant cap count (decode rec.now) work.old work.new }
{
    enter(
        work,
        FIRST_HEADS * cap,
        FIRST_LINKS * cap,
        count,
        bucket_by(cap, b(rec)),
    );
}

// Enters a record with a write that counts.
pub fn enter_write(work: &mut [u64], count: usize, cap: usize, rec: &Record)
    requires { (32 * cap ≤ length work.old) × ((count < cap) × (cap ≤ 4096)) }
    ensures { FirstEntered first_write cap count (decode rec.now) work.old work.new }
{
    enter(
        work,
        FIRST_HEADS * cap,
        FIRST_LINKS * cap,
        count,
        bucket_by_two(cap, a(rec), b(rec)),
    );
}
