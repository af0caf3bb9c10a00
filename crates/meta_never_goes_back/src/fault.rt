// The faults of the check, with their evidence.
ghost use Rattle.std.specs.Prelude.{◌≡◌, ◌∷◌, [], Some};
ghost use Rattle.record.specs.Records.{decode};
ghost use Rattle.rules.specs.Cases.{fault};
ghost use Rattle.rules.specs.MetaNeverGoesBack.{name_by, name_fault};

use record::Record;
use record::field::{a, b, d};
use rules::Fault;

// Kinds 1 and 2: range, generation, index.
pub fn descriptor_fault(kind: u8, rec: &Record) -> Fault
    ensures { Some result ≡ fault kind ((decode rec.now).a ∷ (decode rec.now).d ∷ (decode rec.now).b ∷ []) }
{
    Fault::new(kind, &[a(rec), d(rec), b(rec)])
}

// Kinds 3 and 4, of a key that a record wins and another named: index, range, generation, old generation, and for kind 4
// the standing index.
pub fn name_fault(rec: &Record, old: &Record) -> Option<Fault>
    ensures { result ≡ name_fault (decode rec.now) (name_by (decode old.now)) }
{
    let index = b(rec);
    let generation = d(rec);
    let old_index = b(old);
    let old_generation = d(old);
    if old_index < index {
        if generation < old_generation {
            return Some(Fault::new(3, &[index, a(rec), generation, old_generation]));
        }
        return None;
    }
    if old_generation < generation {
        return Some(Fault::new(4, &[index, a(rec), generation, old_generation, old_index]));
    }
    None
}
