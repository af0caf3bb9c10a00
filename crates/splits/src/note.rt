// What a record leaves in this crate's columns: its node's state with it, what it registers, and its places in the two
// chains.
// Kinds and sub-codes are numbers, as the project's scope numbers them and the definitions speak of them.
ghost use Rattle.std.specs.Prelude.{◌≡◌, true, cond, not, ◌&&◌, ◌∷◌, ℕ, ◌+◌, ◌*◌, ◌≤◌, ◌<◌, length, eqb, IfSome};
ghost use Rattle.record.specs.Records.{decode};
ghost use Rattle.rules.specs.Answers.{found_at};
ghost use Rattle.rules.specs.History.{is_kind, is_by, is_some, when};
ghost use Rattle.history.specs.Bounds.{Bounds};
ghost use Rattle.history.specs.Columns.{number_in};
ghost use Rattle.history.specs.Logs.{hist};
ghost use Rattle.history.specs.Pasts.{taken, Indexed};
ghost use Rattle.history.specs.Places.{restated_at, refused_at};
ghost use Rattle.one_owner_per_key.specs.Numbers.{latest_by};
ghost use Rattle.splits.specs.Numbers.{pending_number};
ghost use Rattle.splits.specs.Columns.{Known, HalfNoted, Celled, CellsPut, server_in, registering_in, split_bucket, recorded_bucket};
ghost use Rattle.splits.specs.Splits.{parent_by};

use crate::cells::{pending_of, refused_by, registering_by, restatement_by, server_by};
use crate::split::{parent_of, registers, uses_up};
use history::bucket::{bucket_by, bucket_by_two};
use history::chain::{enter_if, put};
use history::past::Past;
use history::place::{
    PENDING_AT, RECORDED_HEADS, RECORDED_LINKS, REFUSED_AT, REGISTERED_BY, RESTATED_AT, SERVER_AT,
    SPLIT_HEADS, SPLIT_LINKS,
};
use one_owner_per_key::held::latest_of;
use record::named::NodeId;
use record::{Record, field};

// What is written of a record: the words of its five cells, and its buckets in the two chains, where it is in one.
#[derive(Clone, Copy)]
pub struct Cells {
    pub server: u64,
    pub restated: u64,
    pub refused: u64,
    pub pending: u64,
    pub registered: u64,
    pub split: Option<usize>,
    pub recording: Option<usize>,
}

// The server of a record's node, with the record.
fn server_with(past: &Past, rec: &Record, last: usize, node: NodeId) -> u64
    requires { last ≤ past.now.cap }
    ensures { result ≡ cond (is_kind 4 (decode rec.now)) (decode rec.now).c (server_in past.now.work.now past.now.cap last node.0) }
{
    if field::kind(rec) == 4 {
        return field::c(rec);
    }
    server_by(past, last, node).0
}

// The number of its latest RangesRestated since a crash; 0, the beginning before any record, where there is none.
fn restated_with(past: &Past, rec: &Record, last: usize) -> usize
    requires { last ≤ past.now.count }
    ensures { let x = decode rec.now in
        result ≡ cond (is_kind 5 x) (past.now.count + 1) (cond (is_kind 6 x) 0 (number_in (restated_at * past.now.cap) past.now.work.now last)) }
{
    match field::kind(rec) {
        5 => past.count + 1,
        6 => 0,
        _ => restatement_by(past, last).map_or(0, |mark| mark.number),
    }
}

// The number of its latest refusal.
fn refused_with(past: &Past, rec: &Record, last: usize) -> usize
    requires { last ≤ past.now.cap }
    ensures { result ≡ cond (is_kind 10 (decode rec.now)) (past.now.count + 1) (number_in (refused_at * past.now.cap) past.now.work.now last) }
{
    if field::kind(rec) == 10 {
        return past.count + 1;
    }
    refused_by(past, last)
}

// The number of its pending RangeSplit.
fn pending_with(past: &Past, rec: &Record, last: usize) -> usize
    requires { last ≤ past.now.count }
    ensures { Indexed Known past.now → (node : ℕ) → last ≡ latest_by node (taken past.now) → is_by node (decode rec.now) ≡ true → result ≡ pending_number node (decode rec.now ∷ taken past.now) }
{
    match field::kind(rec) {
        7 => past.count + 1,
        6 | 10 => 0,
        _ => pending_of(past, last)
            .filter(|split| !uses_up(rec, split.record))
            .map_or(0, |split| split.number),
    }
}

// The word for what it registers: the record that names the right range, and the latest registering record so far.
// The numbers are indexes, which have no `From` into a word: `as` is proved to lose nothing.
fn registered_with(past: &Past, named: Option<usize>) -> u64
    requires { IfSome named (λ k. k ≤ past.now.count + 1) }
    ensures { (k : ℕ) → named ≡ found_at k
        → result ≡ 8192 * k + cond (is_some named) (past.now.count + 1) (registering_in past.now.work.now past.now.cap past.now.count) }
{
    match named {
        Some(number) => (8192 * number + past.count + 1) as u64,
        None => registering_by(past, past.count) as u64,
    }
}

// The bucket of the split that a record registers.
fn split_with(past: &Past, rec: &Record, named: Option<usize>) -> Option<usize>
    ensures within { IfSome result (λ b. b < past.now.cap) }
    ensures is { result ≡ when (is_some named) (split_bucket past.now.cap (parent_by (decode rec.now)) (decode rec.now).b) }
{
    let cap = past.cap;
    named.map(|_| bucket_by_two(cap, parent_of(rec), field::b(rec)))
}

// The bucket of a record that records an index: a RangeDescriptor of a node that is not restated.
fn recording_with(past: &Past, rec: &Record, last: usize) -> Option<usize>
    requires { last ≤ past.now.count }
    ensures within { IfSome result (λ b. b < past.now.cap) }
    ensures is { let x = decode rec.now in
        result ≡ when (is_kind 2 x && eqb (number_in (restated_at * past.now.cap) past.now.work.now last) 0) (recorded_bucket past.now.cap x.a) }
{
    let records = (field::kind(rec) == 2) & restatement_by(past, last).is_none();
    let cap = past.cap;
    records.then(|| bucket_by(cap, field::a(rec)))
}

// The cells of a record, which are words. Three are numbers, indexes, which have no `From` into a word: each `as` is proved to lose nothing.
fn cells_of(past: &Past, rec: &Record) -> Cells
    requires { past.now.count < past.now.cap }
    ensures within { (IfSome result.split (λ b. b < past.now.cap)) × (IfSome result.recording (λ b. b < past.now.cap)) }
    ensures cells { Indexed Known past.now → Celled past.now.cap (decode rec.now) (taken past.now) result }
{
    let Some(node) = field::node(rec) else {
        return Cells {
            server: 0,
            restated: 0,
            refused: 0,
            pending: 0,
            registered: registered_with(past, None),
            split: None,
            recording: None,
        };
    };
    let last = latest_of(past, past.count, node);
    let named = registers(past, rec, last);
    Cells {
        server: server_with(past, rec, last, node),
        restated: restated_with(past, rec, last) as u64,
        refused: refused_with(past, rec, last) as u64,
        pending: pending_with(past, rec, last) as u64,
        registered: registered_with(past, named),
        split: split_with(past, rec, named),
        recording: recording_with(past, rec, last),
    }
}

// Writes the five cells.
fn put_cells(work: &mut [u64], cap: usize, count: usize, cells: &Cells)
    requires { (32 * cap ≤ length work.old) × ((count < cap) × (cap ≤ 4096)) }
    ensures { CellsPut work.old work.new cap count cells.now }
{
    put(work, SERVER_AT * cap + count, cells.server);
    put(work, RESTATED_AT * cap + count, cells.restated);
    put(work, REFUSED_AT * cap + count, cells.refused);
    put(work, PENDING_AT * cap + count, cells.pending);
    put(work, REGISTERED_BY * cap + count, cells.registered);
}

// Notes a record as the next: before or after it is written to the log. The work area is lent for writing, so a `Past` is made only for the cells.
pub fn note(log: &[u8], work: &mut [u64], count: usize, cap: usize, rec: &Record)
    requires { Bounds log.now work.old count cap × (count < cap) }
    ensures { HalfNoted cap (hist log.now count) (decode rec.now) work.old work.new }
{
    let past = Past {
        log,
        work,
        count,
        cap,
    };
    let cells = cells_of(&past, rec);
    put_cells(work, cap, count, &cells);
    enter_if(
        work,
        SPLIT_HEADS * cap,
        SPLIT_LINKS * cap,
        count,
        cells.split,
    );
    enter_if(
        work,
        RECORDED_HEADS * cap,
        RECORDED_LINKS * cap,
        count,
        cells.recording,
    );
}
