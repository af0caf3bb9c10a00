// The descriptor that a record names: kinds 1 and 2.
ghost use Rattle.std.specs.Prelude.{◌≡◌};
ghost use Rattle.record.specs.Records.{decode};
ghost use Rattle.rules.specs.Descriptors.{first_at_generation};
ghost use Rattle.rules.specs.MetaNeverGoesBack.{named_fault};
ghost use Rattle.descriptors.specs.Columns.{DescriptorsIndexed};
ghost use Rattle.history.specs.Pasts.{taken, Indexed};

use crate::fault::descriptor_fault;
use descriptors::value::first_of;
use history::held::same_named;
use history::past::Past;
use record::Record;
use record::field::{a, d};
use rules::Fault;

// The case of a record's descriptor: its range has none of that generation, or one that differs.
#[tactic(auto, using(crate::proofs::Putting::named_none, crate::proofs::Putting::named_same, crate::proofs::Putting::named_other))]
pub fn descriptor_case(past: &Past, rec: &Record) -> Option<Fault>
    ensures { let x = decode rec.now in
        Indexed DescriptorsIndexed past.now → result ≡ named_fault x (first_at_generation x.a x.d (taken past.now)) }
{
    let Some(named) = first_of(past, a(rec), d(rec)) else {
        return Some(descriptor_fault(1, rec));
    };
    if same_named(named.record, rec) {
        return None;
    }
    Some(descriptor_fault(2, rec))
}
