// Taking a record: a write that counts into the chain of the firsts, one with a generation into its key's chain.
ghost use Rattle.std.specs.Prelude.{◌≡◌, ◌*◌, ◌≤◌, ◌<◌, length};
ghost use Rattle.record.specs.Records.{decode};
ghost use Rattle.rules.specs.History.{History};
ghost use Rattle.history.specs.Bounds.{Bounds};
ghost use Rattle.history.specs.Logs.{hist};
ghost use Rattle.generations_rise.specs.Columns.{GenerationsNoted, GenerationsTaken};

use crate::key::bucket_by_key;
use crate::write::{Written, counts_as};
use firsts::note::enter_write;
use history::chain::{enter, put};
use history::past::Past;
use history::place::{KEY_HEADS, KEY_LINKS, WRITTEN_AT};
use history::span::start_of;
use record::Record;

// A write that counts and has no generation.
fn note_unrated(work: &mut [u64], count: usize, cap: usize, rec: &Record)
    requires { (32 * cap ≤ length work.old) × ((count < cap) × (cap ≤ 4096)) }
    ensures { (h : History) → length h ≡ count → GenerationsNoted cap h (decode rec.now) Written.Unrated work.old work.new }
{
    enter_write(work, count, cap, rec);
}

// A write that counts at a generation.
fn note_rated(work: &mut [u64], count: usize, cap: usize, rec: &Record, generation: u64)
    requires { (32 * cap ≤ length work.old) × ((count < cap) × (cap ≤ 4096)) }
    ensures { (h : History) → length h ≡ count → GenerationsNoted cap h (decode rec.now) (Written.Rated generation) work.old work.new }
{
    enter_write(work, count, cap, rec);
    enter(
        work,
        KEY_HEADS * cap,
        KEY_LINKS * cap,
        count,
        bucket_by_key(cap, start_of(rec, 0)),
    );
    put(work, WRITTEN_AT * cap + count, generation);
}

// Takes a record whose write counts so, after those taken, into the columns of `GenerationsRise`.
pub fn note_as(work: &mut [u64], count: usize, cap: usize, rec: &Record, written: Written)
    requires { (32 * cap ≤ length work.old) × ((count < cap) × (cap ≤ 4096)) }
    ensures { (h : History) → length h ≡ count → GenerationsNoted cap h (decode rec.now) written work.old work.new }
{
    match written {
        Written::Not => {}
        Written::Unrated => note_unrated(work, count, cap, rec),
        Written::Rated(generation) => note_rated(work, count, cap, rec, generation),
    }
}

// Takes a record, after those taken, into the columns of `GenerationsRise`.
// The work area is lent for writing, so a `Past` is made only for asking whether its write counts.
pub fn note(log: &[u8], work: &mut [u64], count: usize, cap: usize, rec: &Record)
    requires { Bounds log.now work.old count cap × (count < cap) }
    ensures { GenerationsTaken cap (hist log.now count) (decode rec.now) work.old work.new }
{
    let past = Past {
        log,
        work,
        count,
        cap,
    };
    let written = counts_as(&past, rec);
    note_as(work, count, cap, rec, written);
}
