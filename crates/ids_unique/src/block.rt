// The blocks of the records taken: a walk from the newest on, and a new block weighed against the older ones.
ghost use Rattle.std.specs.Prelude.{◌≡◌, false, cond, ◌&&◌, leb, ltb};
ghost use Rattle.record.specs.Records.{decode};
ghost use Rattle.rules.specs.IdsUnique.{grant_by, blocks_of};
ghost use Rattle.history.specs.Pasts.{taken, Indexed};
ghost use Rattle.ids_unique.specs.Columns.{IdsIndexed};
ghost use Rattle.ids_unique.specs.Sharing.{shares_with, weigh, weigh_all};
ghost use Rattle.ids_unique.specs.Walks.{FromLatest};

use crate::cells::block_below;
use history::past::Past;
use history::place::BLOCK_LINKS;
use history::walk::Chain;
use record::Record;
use record::field::{d, e};

// What a walk from block to block finds of a new block: whether one shares an id with it, and the greatest first not above its
// last, also where none does. It is 0 where there is none: an option would be a branch at each block.
#[derive(Clone, Copy)]
pub struct Shared {
    pub any: bool,
    pub top: u64,
}

// The records with a block, from the newest on. A word has the latest block with its own record, and a walk goes on to the
// latest before: so the links begin one word before their column.
pub fn blocks_taken<'a>(past: &Past<'a>) -> Chain<'a>
    ensures { FromLatest past.now result }
{
    Chain {
        log: past.log,
        links: &past.work[BLOCK_LINKS * past.cap - 1..],
        next: block_below(past.work, past.cap, past.count),
    }
}

// Whether a record's block shares an id with one from first to last.
fn shares(rec: &Record, first: u64, last: u64) -> bool
    ensures { result ≡ shares_with first last (grant_by (decode rec.now)) }
{
    (d(rec) <= last) & (first <= e(rec))
}

// The greatest first not above a last, with one block more.
fn risen(top: u64, from: u64, last: u64) -> u64
    ensures { result ≡ cond (leb from last && ltb top from) from top }
{
    if (from <= last) & (top < from) {
        from
    } else {
        top
    }
}

fn weighed(found: Shared, rec: &Record, first: u64, last: u64) -> Shared
    ensures { result ≡ weigh first last found (grant_by (decode rec.now)) }
{
    Shared {
        any: found.any | shares(rec, first, last),
        top: risen(found.top, d(rec), last),
    }
}

// Weighs every block against one from first to last, in one walk.
pub fn shared_with(past: &Past, first: u64, last: u64) -> Shared
    ensures { Indexed IdsIndexed past.now → result ≡ weigh_all first last (record { any = false; top = 0 }) (blocks_of (taken past.now)) }
{
    let none = Shared { any: false, top: 0 };
    blocks_taken(past).fold(none, |found, old| weighed(found, old.record, first, last))
}
