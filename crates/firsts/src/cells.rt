// The two walks along the chain of the firsts: the first grant at an index, and whether a write counted.
// Kinds are numbers, as the project's scope numbers them and the definitions speak of them (`is_kind`): an enum would be read back into them.
ghost use Rattle.std.specs.Prelude.{◌≡◌, ◌&&◌, eqb};
ghost use Rattle.record.specs.Records.{decode};
ghost use Rattle.rules.specs.History.{is_kind, any_of};
ghost use Rattle.rules.specs.GenerationsRise.{writes};
ghost use Rattle.history.specs.Pasts.{taken, Indexed, IsFound, number_of};
ghost use Rattle.firsts.specs.Columns.{FirstsIndexed, first_grant_at, placed};

use history::bucket::{bucket_by, bucket_by_two};
use history::past::Past;
use history::place::{FIRST_HEADS, FIRST_LINKS};
use history::walk::Taken;
use record::Record;
use record::field::{a, b, kind};

// Whether a record is a grant at an index.
fn is_grant(rec: &Record, index: u64) -> bool
    ensures { result ≡ is_kind 11 (decode rec.now) && eqb (decode rec.now).b index }
{
    (kind(rec) == 11) & (b(rec) == index)
}

// The record with the first grant at an index.
pub fn grant_at<'a>(past: &Past<'a>, index: u64) -> Option<Taken<'a>>
    ensures found { IsFound past.now result }
    ensures first { Indexed FirstsIndexed past.now → number_of result ≡ first_grant_at index (taken past.now) }
{
    let bucket = bucket_by(past.cap, index);
    past.chain(FIRST_HEADS, FIRST_LINKS, bucket)
        .find(|old| is_grant(old.record, index))
}

// Whether a record is a RaftApply at a range and index.
fn is_placed(rec: &Record, range: u64, index: u64) -> bool
    ensures { result ≡ is_kind 3 (decode rec.now) && (eqb range (decode rec.now).a && eqb index (decode rec.now).b) }
{
    (kind(rec) == 3) & ((range == a(rec)) & (index == b(rec)))
}

// Whether a write at a range and index counted before.
pub fn is_counted(past: &Past, range: u64, index: u64) -> bool
    ensures { Indexed FirstsIndexed past.now → result ≡ any_of (placed range index) (writes (taken past.now)) }
{
    let bucket = bucket_by_two(past.cap, range, index);
    past.chain(FIRST_HEADS, FIRST_LINKS, bucket)
        .any(|old| is_placed(old.record, range, index))
}
