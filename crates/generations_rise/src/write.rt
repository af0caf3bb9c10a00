// The writes that count: the first Applied write with a key at each range and index, at the generation of `before`; and a
// key's last one.
// Kinds are numbers, as the project's scope numbers them and the definitions speak of them (`is_kind`): an enum would be read back into them.
ghost use Rattle.std.specs.Prelude.{◌≡◌, false, ◌&&◌, leb, length};
ghost use Rattle.record.specs.Keys.{key_in};
ghost use Rattle.record.specs.Records.{decode};
ghost use Rattle.record.specs.declared.named.ApplyEffect.TheVariants.{Applied};
ghost use Rattle.rules.specs.Answers.{found_at};
ghost use Rattle.rules.specs.History.{is_kind};
ghost use Rattle.rules.specs.GenerationsRise.{has_effect};
ghost use Rattle.history.specs.Pasts.{taken, Indexed};
ghost use Rattle.firsts.specs.Columns.{FirstsIndexed};
ghost use Rattle.descriptors.specs.Columns.{DescriptorsIndexed};
ghost use Rattle.generations_rise.specs.Columns.{GenerationsIndexed, last_write_at};
ghost use Rattle.generations_rise.specs.Answers.{written_as};

use crate::cells::last_write_at;
use descriptors::value::value_before;
use firsts::cells::is_counted;
use history::past::Past;
use record::Record;
use record::field::{a, b, code, d, kind, span_count};

// What a record's write counts as: none that counts, one that has no generation, one at a generation.
// Three cases, each by its name: an `Option` has two, and one within another would name neither of those without a number.
#[derive(Clone, Copy)]
pub enum Written {
    Not,
    Unrated,
    Rated(u64),
}

// Whether a record is an Applied write with a key.
fn is_write(rec: &Record) -> bool
    ensures { result ≡ has_effect Applied (decode rec.now) && leb 1 (length (decode rec.now).spans) }
{
    (kind(rec) == 3) & (code(rec) == 1) & (1 <= span_count(rec))
}

// What a record's write counts as, over the records taken.
#[tactic(auto, using(crate::proofs::Writes::as_none, crate::proofs::Writes::as_known, crate::proofs::Writes::as_unrated, crate::proofs::Writes::as_rated))]
pub fn counts_as(past: &Past, rec: &Record) -> Written
    ensures kind { is_kind 3 (decode rec.now) ≡ false → result ≡ Written.Not }
    ensures told { Indexed FirstsIndexed past.now → Indexed DescriptorsIndexed past.now → result ≡ written_as (decode rec.now) (taken past.now) }
{
    let range = a(rec);
    let index = b(rec);
    if !is_write(rec) || is_counted(past, range, index) {
        return Written::Not;
    }
    match value_before(past, range, index) {
        None => Written::Unrated,
        Some(value) => Written::Rated(d(value.record)),
    }
}

// The record with the last write of the key in a place, as a look-up's answer.
// Its number is an index, which has no `From` into a word: `as` is proved to lose nothing.
pub fn last_write(past: &Past, place: &[u8]) -> Option<u64>
    ensures { Indexed GenerationsIndexed past.now → result ≡ found_at (last_write_at (key_in place.now) (taken past.now)) }
{
    last_write_at(past, place).map(|write| write.number as u64)
}
