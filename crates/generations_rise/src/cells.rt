// The columns of `GenerationsRise`: a key's last write that has a generation, found along the key's chain, and that generation.
ghost use Rattle.std.specs.Prelude.{◌≡◌, List, ℕ, ◌*◌, ◌≤◌, ◌<◌, length};
ghost use Rattle.record.specs.Keys.{key_in, key_eqb};
ghost use Rattle.record.specs.Records.{decode};
ghost use Rattle.rules.specs.Descriptors.{span_of};
ghost use Rattle.history.specs.Logs.{record_at, hist};
ghost use Rattle.history.specs.Pasts.{taken, Indexed, IsFound, number_of};
ghost use Rattle.generations_rise.specs.Columns.{GenerationsIndexed, generation_by, last_write_at};

use crate::key::bucket_by_key;
use history::past::Past;
use history::place::{KEY_HEADS, KEY_LINKS, WRITTEN_AT};
use history::span::start_of;
use history::walk::Taken;
use record::Record;
use record::key::same_key;

// Whether the first span of a record begins with the key in a place.
fn has_key(rec: &Record, place: &[u8]) -> bool
    ensures { result ≡ key_eqb (span_of 0 (decode rec.now)).start (key_in place.now) }
{
    same_key(start_of(rec, 0), place)
}

// The record with the last write of the key in a place.
pub fn last_write_at<'a>(past: &Past<'a>, place: &[u8]) -> Option<Taken<'a>>
    ensures found { IsFound past.now result }
    ensures last { Indexed GenerationsIndexed past.now → number_of result ≡ last_write_at (key_in place.now) (taken past.now) }
{
    let bucket = bucket_by_key(past.cap, place);
    past.chain(KEY_HEADS, KEY_LINKS, bucket)
        .find(|old| has_key(old.record, place))
}

// The generation of the write of the record at a place. It is lent the work area alone: it needs no log, as a `Past` does.
#[tactic(auto, using(crate::proofs::KeyWrites::written_is))]
pub fn written_at(work: &[u64], cap: usize, at: usize) -> u64
    requires { (32 * cap ≤ length work.now) × ((at < cap) × (cap ≤ 4096)) }
    ensures { (log : List ℕ) (count : ℕ) → at < count → count ≤ cap → GenerationsIndexed cap (hist log count) work.now
        → result ≡ generation_by (record_at log at) (hist log at) }
{
    work[WRITTEN_AT * cap + at]
}
