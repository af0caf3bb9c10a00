// The lowest range that a node holds over a span that meets a record's. The ranges are those that the node came to hold
// since its latest end, newest first: what it holds is among them.
ghost use Rattle.std.specs.Prelude.{◌≡◌, ◌<◌};
ghost use Rattle.record.specs.Records.{decode};
ghost use Rattle.rules.specs.History.{holds};
ghost use Rattle.rules.specs.Descriptors.{span_of};
ghost use Rattle.rules.specs.OneOwnerPerKey.{hold_of, lowest_meeting};
ghost use Rattle.rules.specs.OneOwnerPerKey as rule;
ghost use Rattle.one_owner_per_key.specs.Numbers.{latest_end};
ghost use Rattle.one_owner_per_key.specs.Columns.{OwnersIndexed};
ghost use Rattle.one_owner_per_key.specs.Answers as answer;
ghost use Rattle.history.specs.Pasts.{taken, Indexed};

use crate::group::is_named;
use crate::held::held_after;
use crate::newly::NewlyHeld;
use history::past::Past;
use history::span::{end_of, start_of};
use record::key::key_less;
use record::named::NodeId;
use record::{Record, field};

// Which ranges may not be met: those other than one, or those that no start in the record names.
// These are two questions, each with its number: neither is where the other is missing.
#[derive(Clone, Copy)]
pub enum Others {
    Than(u64),
    NotNamed(u64),
}

// Whether a range is among those that may not be met.
fn passes(rec: &Record, others: Others, range: u64) -> bool
    ensures { result ≡ answer.passes others (decode rec.now).spans range }
{
    match others {
        Others::Than(own) => range != own,
        Others::NotNamed(tenant) => !is_named(rec, tenant, range),
    }
}

// Whether the first span of a record meets a span of another: "from < end and start < to".
fn meets(rec: &Record, k: usize, other: &Record) -> bool
    requires { k < 4 }
    ensures { result ≡ rule.meets (span_of k (decode rec.now)) (span_of 0 (decode other.now)) }
{
    key_less(start_of(other, 0), end_of(rec, k)) && key_less(start_of(rec, k), end_of(other, 0))
}

// Whether a node holds a range over a span that meets the record's.
fn is_met(past: &Past, node: NodeId, range: u64, ended: usize, rec: &Record, k: usize) -> bool
    requires { k < 4 }
    ensures { Indexed OwnersIndexed past.now → ended ≡ latest_end node.0 (taken past.now) → result ≡ holds (rule.meets (span_of k (decode rec.now))) (hold_of node.0 range (taken past.now)) }
{
    held_after(past, past.count, node, range, ended).is_some_and(|held| meets(rec, k, held.record))
}

// Whether a range is below the lowest so far.
fn is_below(range: u64, best: Option<u64>) -> bool
    ensures { result ≡ answer.is_below range best }
{
    best.is_none_or(|b| range < b)
}

// The lowest range that may not be met and that a node holds over a span that meets the record's. The cheap tests come first: a
// range that is not below the lowest so far is not looked back for.
pub fn lowest_meeting(
    past: &Past,
    node: NodeId,
    rec: &Record,
    k: usize,
    others: Others,
) -> Option<u64>
    requires { k < 4 }
    ensures { Indexed OwnersIndexed past.now → result ≡ lowest_meeting (answer.passes others (decode rec.now).spans) (span_of k (decode rec.now)) node.0 (taken past.now) }
{
    let newly = NewlyHeld::of(past, node);
    let ended = newly.ended;
    let mut best = None;
    for old in newly {
        let range = field::a(old.record);
        if is_below(range, best)
            && passes(rec, others, range)
            && is_met(past, node, range, ended, rec, k)
        {
            best = Some(range);
        }
    }
    best
}
