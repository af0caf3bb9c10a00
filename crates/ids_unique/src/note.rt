// Taking a record: its words in the columns of the blocks, and a first grant into the chain of the firsts.
// Kinds are numbers, as the project's scope numbers them and the definitions speak of them (`is_kind`): an enum would be read back into them.
ghost use Rattle.std.specs.Prelude.{◌≡◌, true, cond, ◌+◌, ◌*◌, ◌≤◌, ◌<◌, max, length};
ghost use Rattle.record.specs.Records.{decode};
ghost use Rattle.rules.specs.History.{is_some};
ghost use Rattle.rules.specs.IdsUnique.{grant_by, nonempty, blocks_of};
ghost use Rattle.history.specs.Logs.{hist};
ghost use Rattle.history.specs.Bounds.{Bounds};
ghost use Rattle.firsts.specs.Columns.{FirstsIndexed, first_grant};
ghost use Rattle.ids_unique.specs.Columns.{IdsIndexed, IdsNoted, latest_block, greatest_of_lasts};
ghost use Rattle.history.specs.Pasts.{taken, Indexed};

use crate::cells::{block_below, greatest_last};
use firsts::cells::grant_at;
use firsts::note::enter_grant;
use history::chain::put;
use history::past::Past;
use history::place::{BLOCK_LINKS, GREATEST_LAST};
use record::Record;
use record::field::{b, d, e, kind};

// Whether a record has a first grant.
fn is_first(past: &Past, rec: &Record) -> bool
    ensures kind { result ≡ true → (decode rec.now).kind ≡ 11 }
    ensures first { Indexed FirstsIndexed past.now → result ≡ is_some (first_grant (decode rec.now) (taken past.now)) }
{
    kind(rec) == 11 && grant_at(past, b(rec)).is_none()
}

// Whether a grant is not empty.
fn is_full(rec: &Record) -> bool
    ensures { result ≡ nonempty (grant_by (decode rec.now)) }
{
    d(rec) <= e(rec)
}

// The number of the latest record with a block, after one that has one or none.
// It is written as a word, into which an index has no `From`: `as` is proved to lose nothing.
fn link_after(past: &Past, block: bool) -> u64
    ensures { Indexed IdsIndexed past.now → result ≡ cond block (past.now.count + 1) (latest_block (taken past.now)) }
{
    if block {
        past.count as u64 + 1
    } else {
        block_below(past.work, past.cap, past.count) as u64
    }
}

// The greatest last of a block, after a record that has one or none.
fn last_after(past: &Past, block: bool, last: u64) -> u64
    ensures { Indexed IdsIndexed past.now → result ≡ cond block (max last (greatest_of_lasts (blocks_of (taken past.now)))) (greatest_of_lasts (blocks_of (taken past.now))) }
{
    let top = greatest_last(past.work, past.cap, past.count);
    if block { top.max(last) } else { top }
}

// Takes a record, after those taken, into the columns of `IdsUnique`.
// The work area is lent for writing, so a `Past` is made only for its two words and whether the grant is a first.
pub fn note(log: &[u8], work: &mut [u64], count: usize, cap: usize, rec: &Record)
    requires { Bounds log.now work.old count cap × (count < cap) }
    ensures { IdsNoted cap (hist log.now count) (decode rec.now) work.old work.new }
{
    let past = Past {
        log,
        work,
        count,
        cap,
    };
    let first = is_first(&past, rec);
    let block = first & is_full(rec);
    let link = link_after(&past, block);
    let last = last_after(&past, block, e(rec));
    put(work, BLOCK_LINKS * cap + count, link);
    put(work, GREATEST_LAST * cap + count, last);
    if first {
        enter_grant(work, count, cap, rec);
    }
}
