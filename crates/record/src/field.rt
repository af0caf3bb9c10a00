// The fields of a record, each read from the 368 bytes where it lies.
ghost use Rattle.std.specs.Prelude.{◌≡◌, ◌<◌, ◌≤◌, length, get_or};
ghost use Rattle.record.specs.Limits.{voter_limit, span_limit};
ghost use Rattle.record.specs.Records.{decode};

use crate::Record;
use crate::limits::{SPAN_LIMIT, VOTER_LIMIT, VOTERS_AT};
use crate::named::NodeId;
use crate::number::{u32_at, u64_at};

// The kind: a number, as the project's scope numbers the kinds and the definitions speak of them; form refuses what is none of them.
#[tactic(auto, unfolding(crate::specs::Records::decode))]
pub fn kind(rec: &Record) -> u8
    ensures { result ≡ (decode rec.now).kind }
{
    rec[0]
}

// The node, where the record is marked with one.
#[tactic(auto, unfolding(crate::specs::Records::decode, crate::specs::Records::node_in))]
pub fn node(rec: &Record) -> Option<NodeId>
    ensures { result ≡ (decode rec.now).node }
{
    if rec[1] == 1 {
        Some(NodeId(u32_at(rec, 4)))
    } else {
        None
    }
}

// The sub-code.
#[tactic(auto, unfolding(crate::specs::Records::decode))]
pub fn code(rec: &Record) -> u8
    ensures { result ≡ (decode rec.now).code }
{
    rec[2]
}

// The flag.
#[tactic(auto, unfolding(crate::specs::Records::decode))]
pub fn flag(rec: &Record) -> u8
    ensures { result ≡ (decode rec.now).flag }
{
    rec[3]
}

// The numbers A to E.
#[tactic(auto, unfolding(crate::specs::Records::decode))]
pub fn a(rec: &Record) -> u64
    ensures { result ≡ (decode rec.now).a }
{
    u64_at(rec, 8)
}

#[tactic(auto, unfolding(crate::specs::Records::decode))]
pub fn b(rec: &Record) -> u64
    ensures { result ≡ (decode rec.now).b }
{
    u64_at(rec, 16)
}

#[tactic(auto, unfolding(crate::specs::Records::decode))]
pub fn c(rec: &Record) -> u64
    ensures { result ≡ (decode rec.now).c }
{
    u64_at(rec, 24)
}

#[tactic(auto, unfolding(crate::specs::Records::decode))]
pub fn d(rec: &Record) -> u64
    ensures { result ≡ (decode rec.now).d }
{
    u64_at(rec, 32)
}

#[tactic(auto, unfolding(crate::specs::Records::decode))]
pub fn e(rec: &Record) -> u64
    ensures { result ≡ (decode rec.now).e }
{
    u64_at(rec, 40)
}

// How many voters and how many spans there are, never more than the limits.
#[tactic(auto, using(crate::proofs::Records::length_voters), unfolding(crate::specs::Records::decode))]
pub fn voter_count(rec: &Record) -> usize
    ensures { (result ≡ length (decode rec.now).voters) × (result ≤ voter_limit) }
{
    usize::from(rec[48].min(VOTER_LIMIT))
}

#[tactic(auto, using(crate::proofs::Records::length_spans), unfolding(crate::specs::Records::decode))]
pub fn span_count(rec: &Record) -> usize
    ensures { (result ≡ length (decode rec.now).spans) × (result ≤ span_limit) }
{
    usize::from(rec[49].min(SPAN_LIMIT))
}

// The voter at a place of the list.
#[tactic(auto, using(crate::proofs::Records::few_voters, crate::proofs::Records::voter_at), unfolding(crate::specs::Records::decode))]
pub fn voter(rec: &Record, i: usize) -> u64
    requires { i < length (decode rec.now).voters }
    ensures { result ≡ get_or (decode rec.now).voters i 0 }
{
    u64_at(rec, VOTERS_AT + 8 * i)
}
