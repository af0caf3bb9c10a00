// What a record leaves in this crate's columns: its place in the two chains, and its two cells.
// Kinds and sub-codes are numbers, as the project's scope numbers them and the definitions speak of them.
ghost use Rattle.std.specs.Prelude.{◌≡◌, cond, not, ◌&&◌, ◌||◌, ◌+◌, ◌*◌, ◌≤◌, ◌<◌, length};
ghost use Rattle.record.specs.Records.{decode};
ghost use Rattle.rules.specs.History.{is_kind};
ghost use Rattle.rules.specs.OneOwnerPerKey.{is_holding, has_hold};
ghost use Rattle.history.specs.Bounds.{Bounds};
ghost use Rattle.history.specs.Buckets.{bucket_by_two};
ghost use Rattle.history.specs.Logs.{hist};
ghost use Rattle.history.specs.Places.{hold_heads, hold_links};
ghost use Rattle.one_owner_per_key.specs.Numbers.{latest_end};
ghost use Rattle.one_owner_per_key.specs.Columns.{OwnersIndexed, OwnersNoted, is_chained, bit, newly_cell, ended_cell, EnteredIf};
ghost use Rattle.history.specs.Pasts.{taken, Indexed};

use crate::cells::{end_by, hold_bucket, latest_newly, node_bucket};
use crate::held::{held_after, is_holding, latest_of};
use history::chain::{enter, put};
use history::past::Past;
use history::place::{ENDED_AT, HOLD_HEADS, HOLD_LINKS, NEWLY_HELD, NODE_HEADS, NODE_LINKS};
use record::named::NodeId;
use record::{Record, field};

// What is written of a record: whether it newly holds its range, with the one before it that did; its node's latest end.
#[derive(Clone, Copy)]
pub struct Cells {
    pub newly: u64,
    pub ended: u64,
}

// Whether a record is chained by its node and range.
fn is_chained(rec: &Record) -> bool
    ensures { result ≡ is_chained (decode rec.now) }
{
    match field::kind(rec) {
        1 | 2 | 7 | 9 => true,
        3 => field::code(rec) == 4,
        _ => false,
    }
}

// Whether a record ends all that its node holds.
fn is_end(rec: &Record) -> bool
    ensures { result ≡ is_kind 6 (decode rec.now) || is_kind 10 (decode rec.now) }
{
    matches!(field::kind(rec), 6 | 10)
}

// Whether a record makes a node hold a range that it does not hold.
fn is_newly_held(past: &Past, rec: &Record, node: NodeId, ended: usize) -> bool
    ensures { Indexed OwnersIndexed past.now → ended ≡ latest_end node.0 (taken past.now) → result ≡ is_holding (decode rec.now) && not (has_hold node.0 (decode rec.now).a (taken past.now)) }
{
    is_holding(rec) && held_after(past, past.count, node, field::a(rec), ended).is_none()
}

// The number of a node's latest end with a record of its own, the next.
fn end_with(rec: &Record, count: usize, ended: usize) -> usize
    requires { count < 4096 }
    ensures { result ≡ cond (is_kind 6 (decode rec.now) || is_kind 10 (decode rec.now)) (count + 1) ended }
{
    if is_end(rec) { count + 1 } else { ended }
}

// The cells of a marked record. They are words, into which the numbers, indexes, have no `From`: `as` is proved to lose nothing.
fn cells_of(past: &Past, rec: &Record, node: NodeId) -> Cells
    requires { past.now.count < past.now.cap }
    ensures { Indexed OwnersIndexed past.now → (decode rec.now).node ≡ Some node → (result.newly ≡ newly_cell (decode rec.now) (taken past.now)) × (result.ended ≡ ended_cell (decode rec.now) (taken past.now)) }
{
    let last = latest_of(past, past.count, node);
    let ended = end_by(past, last);
    let newly = is_newly_held(past, rec, node, ended);
    Cells {
        newly: 2 * latest_newly(past.work, past.cap, last) as u64 + u64::from(newly),
        ended: end_with(rec, past.count, ended) as u64,
    }
}

// Enters a record into the chain of its node and range, where it is one of those chained.
fn enter_hold(work: &mut [u64], count: usize, cap: usize, rec: &Record, node: NodeId)
    requires { (32 * cap ≤ length work.old) × ((count < cap) × (cap ≤ 4096)) }
    ensures { EnteredIf (is_chained (decode rec.now)) work.old work.new (hold_heads * cap) (hold_links * cap) count (bucket_by_two cap node.0 (decode rec.now).a) }
{
    if is_chained(rec) {
        enter(
            work,
            HOLD_HEADS * cap,
            HOLD_LINKS * cap,
            count,
            hold_bucket(cap, node, field::a(rec)),
        );
    }
}

// Notes a record as the next: before or after it is written to the log. One without a node leaves everything as it is.
// The work area is lent for writing, so a `Past` is made only for the cells.
pub fn note(log: &[u8], work: &mut [u64], count: usize, cap: usize, rec: &Record)
    requires { Bounds log.now work.old count cap × (count < cap) }
    ensures { OwnersNoted cap (hist log.now count) (decode rec.now) work.old work.new }
{
    let Some(node) = field::node(rec) else {
        return;
    };
    let past = Past {
        log,
        work,
        count,
        cap,
    };
    let cells = cells_of(&past, rec, node);
    enter_hold(work, count, cap, rec, node);
    enter(
        work,
        NODE_HEADS * cap,
        NODE_LINKS * cap,
        count,
        node_bucket(cap, node),
    );
    put(work, NEWLY_HELD * cap + count, cells.newly);
    put(work, ENDED_AT * cap + count, cells.ended);
}
