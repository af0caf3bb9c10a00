// The meta check of a new record: its descriptor, then the keys that it won.
// Kinds are numbers, as the project's scope numbers them and the definitions speak of them (`is_kind`): an enum would be read back into them.
ghost use Rattle.std.specs.Prelude.{◌≡◌};
ghost use Rattle.record.specs.Records.{decode};
ghost use Rattle.rules.specs.declared.Verdict.TheVariants.{Pass};
ghost use Rattle.rules.specs.MetaNeverGoesBack.{meta_at};
ghost use Rattle.rules.specs.Reports.{at_last, report_of};
ghost use Rattle.descriptors.specs.Columns.{DescriptorsIndexed};
ghost use Rattle.meta_never_goes_back.specs.Columns.{MetaIndexed};
ghost use Rattle.history.specs.Pasts.{taken, Indexed};

use crate::descriptor::descriptor_case;
use crate::walk::won_case;
use history::past::Past;
use record::Record;
use record::field::kind;
use rules::Fault;

// The meta case of a record over those of the log, while the report is a pass: its descriptor first, then the keys that it
// won.
#[tactic(auto, using(rules::proofs::MetaCases::meta_other, rules::proofs::MetaCases::meta_named, rules::proofs::MetaCases::meta_won))]
pub fn meta(past: &Past, rec: &Record) -> Option<Fault>
    ensures { Indexed DescriptorsIndexed past.now → Indexed MetaIndexed past.now
        → (report_of (at_last meta_at) (taken past.now)).verdict ≡ Pass → result ≡ meta_at (decode rec.now) (taken past.now) }
{
    if kind(rec) != 12 {
        return None;
    }
    match descriptor_case(past, rec) {
        Some(fault) => Some(fault),
        None => won_case(past, rec),
    }
}
