// The debt that a node owes a right range by: the split by which it came to owe it. It is wanted once, at a fault.
// Kinds and sub-codes are numbers, as the project's scope numbers them and the definitions speak of them.
ghost use Rattle.std.specs.Prelude.{◌≡◌, true, ◌&&◌, ◌-◌, ◌≤◌, ◌<◌, Some};
ghost use Rattle.std.specs.Option.{option_map};
ghost use Rattle.record.specs.Records.{decode};
ghost use Rattle.rules.specs.RightHalf.{Registered, own_debt, debt_at, owes};
ghost use Rattle.history.specs.Logs.{record_at, hist};
ghost use Rattle.history.specs.Pasts.{taken, Indexed, IsTaken};
ghost use Rattle.splits.specs.Columns.{Known};
ghost use Rattle.splits.specs.Walk.{split_of, number_by, IsSplit, AreSplit};
ghost use Rattle.debts.specs.Debts.{is_right, has_voter, is_covered, applied_split, covered_split, first_split, is_above};

use crate::owed::owes_first;
use history::past::Past;
use history::walk::Taken;
use one_owner_per_key::held::is_by;
use record::named::{NodeId, ServerId};
use record::{Record, field};
use splits::split::{Split, has_taken, is_voter, parent_of, split_at, split_of};
use splits::state::{is_restated, server_of};
use splits::walk::Splits;

// Whether a split has a right range, and a server among its voters.
fn is_voted(split: &Split, right: u64, server: ServerId) -> bool
    ensures { result ≡ (is_right right (split_of split.now) && has_voter server.0 (split_of split.now)) }
{
    split.right == right && is_voter(split.record, server)
}

// The split that a RangeSplit or a Took applies.
fn applied_split<'a>(
    past: &Past<'a>,
    old: &Taken,
    right: u64,
    server: ServerId,
) -> Option<Split<'a>>
    requires { IsTaken past.now old.now }
    ensures found { AreSplit past.now result }
    ensures is { Indexed Known past.now → option_map split_of result ≡ applied_split past.now.log.now (old.now.number - 1) right server.0 }
{
    let (range, index) = (field::a(old.record), field::b(old.record));
    split_of(past, old.number - 1, range, index).filter(|split| is_voted(split, right, server))
}

// Whether a RangeDescriptor has applied a split.
fn is_covered(rec: &Record, split: &Split, right: u64, server: ServerId) -> bool
    ensures { result ≡ is_covered (decode rec.now) right server.0 (split_of split.now) }
{
    parent_of(split.record) == field::a(rec)
        && field::b(split.record) <= field::c(rec)
        && is_voted(split, right, server)
}

// Whether a split has a greater index than the best so far, where there is one.
fn is_above(split: &Split, best: Option<Split>) -> bool
    ensures { result ≡ is_above (option_map split_of best.entry) (split_of split.now) }
{
    best.is_none_or(|kept| field::b(kept.record) < field::b(split.record))
}

// The split with the greatest index that a RangeDescriptor has applied: over the registered splits, the latest first.
fn covered_split<'a>(
    past: &Past<'a>,
    old: &Taken,
    right: u64,
    server: ServerId,
) -> Option<Split<'a>>
    requires { IsTaken past.now old.now }
    ensures found { AreSplit past.now result }
    ensures is { Indexed Known past.now → option_map split_of result ≡ covered_split past.now.log.now (old.now.number - 1) right server.0 }
{
    let mut best: Option<Split> = None;
    for split in Splits::of(past, old.number) {
        if is_above(&split, best) && is_covered(old.record, &split, right, server) {
            best = Some(split);
        }
    }
    best
}

// The split by which a node comes to owe at its own record.
fn own_debt<'a>(past: &Past<'a>, old: &Taken, node: NodeId, right: u64) -> Option<Split<'a>>
    requires { IsTaken past.now old.now }
    ensures found { AreSplit past.now result }
    ensures is { let k = old.now.number - 1 in
        Indexed Known past.now → option_map split_of result ≡ own_debt node.0 right (record_at past.now.log.now k) (hist past.now.log.now k) }
{
    if !is_by(old.record, node) {
        return None;
    }
    let at = old.number - 1;
    let server = server_of(past, at, node);
    if (field::kind(old.record) == 7) | has_taken(old.record) {
        return applied_split(past, old, right, server);
    }
    if (field::kind(old.record) == 2) & !is_restated(past, at, node) {
        return covered_split(past, old, right, server);
    }
    None
}

// The split that a record registers, where a node comes to owe by it.
fn first_debt<'a>(past: &Past<'a>, old: &Taken<'a>, node: NodeId, right: u64) -> Option<Split<'a>>
    requires { IsTaken past.now old.now }
    ensures found { AreSplit past.now result }
    ensures is { Indexed Known past.now → option_map split_of result ≡ first_split past.now.log.now (old.now.number - 1) node.0 right }
{
    let split = split_at(past, old)?;
    if split.right == right && owes_first(past, old.number - 1, node, old.record) {
        Some(split)
    } else {
        None
    }
}

// The split by which a node comes to owe a right range at a record.
fn debt_at<'a>(past: &Past<'a>, old: &Taken<'a>, node: NodeId, right: u64) -> Option<Split<'a>>
    requires { IsTaken past.now old.now }
    ensures found { AreSplit past.now result }
    ensures arises { let k = old.now.number - 1 in
        Indexed Known past.now → option_map split_of result ≡ debt_at node.0 right (record_at past.now.log.now k) (hist past.now.log.now k) }
{
    if let Some(debt) = own_debt(past, old, node, right) {
        return Some(debt);
    }
    first_debt(past, old, node, right)
}

// The split by which a node owes a right range, wherever it owes it.
pub fn debt_of<'a>(past: &Past<'a>, node: NodeId, right: u64) -> Option<Split<'a>>
    ensures found { AreSplit past.now result }
    ensures owed { Indexed Known past.now → (s : Registered) → owes node.0 right (taken past.now) ≡ Some s → option_map split_of result ≡ Some s }
{
    for at in (0..past.count).rev() {
        let old = Taken {
            number: at + 1,
            record: past.record(at),
        };
        if let Some(debt) = debt_at(past, &old, node, right) {
            return Some(debt);
        }
    }
    None
}
