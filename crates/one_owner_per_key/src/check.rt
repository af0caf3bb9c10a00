// The clauses overlap, install and twice: what each says of a record, judged by it and those before.
// Kinds and sub-codes are numbers, as the project's scope numbers them and the definitions speak of them.
ghost use Rattle.std.specs.Prelude.{◌≡◌, ◌<◌};
ghost use Rattle.record.specs.Records.{decode};
ghost use Rattle.rules.specs.Descriptors.{span_of};
ghost use Rattle.rules.specs.OneOwnerPerKey.{overlap_at, install_at, install_fault, twice_at};
ghost use Rattle.one_owner_per_key.specs.Columns.{OwnersIndexed};
ghost use Rattle.history.specs.Pasts.{taken, Indexed};

use crate::group::group_of;
use crate::held::{held_by, is_holding};
use crate::meeting::{Others, lowest_meeting};
use history::past::Past;
use history::span::start_of;
use record::named::NodeId;
use record::{Record, field};
use rules::Fault;

// overlap: the range that the record makes its node hold, over a span that meets that of another. The Rust's `hold`.
pub fn overlap(past: &Past, rec: &Record) -> Option<Fault>
    ensures { Indexed OwnersIndexed past.now → result ≡ overlap_at (decode rec.now) (taken past.now) }
{
    let node = field::node(rec)?;
    if !is_holding(rec) {
        return None;
    }
    let range = field::a(rec);
    let other = lowest_meeting(past, node, rec, 0, Others::Than(range))?;
    Some(Fault::new(1, &[u64::from(node.0), range, other]))
}

// The case of install, of one span. The Rust's `replaced`.
fn replaced_case(past: &Past, rec: &Record, tenant: u64, node: NodeId, k: usize) -> Option<Fault>
    requires { k < 4 }
    ensures { Indexed OwnersIndexed past.now → result ≡ install_fault tenant (decode rec.now) (taken past.now) node.0 (span_of k (decode rec.now)) }
{
    if group_of(start_of(rec, k), tenant).is_some() {
        return None;
    }
    let range = lowest_meeting(past, node, rec, k, Others::NotNamed(tenant))?;
    Some(Fault::new(1, &[u64::from(node.0), range]))
}

// install: the first span of a kind 8 that names no group and meets a range that no start in the record names.
pub fn install(past: &Past, rec: &Record, tenant: u64) -> Option<Fault>
    ensures { Indexed OwnersIndexed past.now → result ≡ install_at tenant (decode rec.now) (taken past.now) }
{
    let node = field::node(rec)?;
    if field::kind(rec) != 8 {
        return None;
    }
    (0..field::span_count(rec)).find_map(|k| replaced_case(past, rec, tenant, node, k))
}

// twice: a RangeCreated of a range that its node holds already.
pub fn twice(past: &Past, rec: &Record) -> Option<Fault>
    ensures { Indexed OwnersIndexed past.now → result ≡ twice_at (decode rec.now) (taken past.now) }
{
    let node = field::node(rec)?;
    if field::kind(rec) != 1 {
        return None;
    }
    let range = field::a(rec);
    held_by(past, past.count, node, range)?;
    Some(Fault::new(1, &[u64::from(node.0), range, field::b(rec)]))
}
