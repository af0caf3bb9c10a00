// The ids check at a new record.
// Kinds are numbers, as the project's scope numbers them and the definitions speak of them (`is_kind`): an enum would be read back into them.
ghost use Rattle.std.specs.Prelude.{◌≡◌, not, [], ◌∷◌, ◌<◌};
ghost use Rattle.record.specs.Records.{decode};
ghost use Rattle.rules.specs.Cases.{fault, fault_if};
ghost use Rattle.rules.specs.IdsUnique.{grant_by, grant_eqb, blocks_of, first_fault, ids_at};
ghost use Rattle.firsts.specs.Columns.{FirstsIndexed};
ghost use Rattle.ids_unique.specs.Columns.{IdsIndexed};
ghost use Rattle.history.specs.Pasts.{taken, Indexed};

use crate::block::shared_with;
use crate::cells::greatest_last;
use firsts::cells::grant_at;
use history::past::Past;
use record::Record;
use record::field::{a, b, c, d, e, kind};
use rules::Fault;

// Whether two grants have the same node, run, first and last.
// An `==` of the records would compare their index too, and a derived one would need two grants built of those numbers.
fn same_grant(new: &Record, old: &Record) -> bool
    ensures { result ≡ grant_eqb (grant_by (decode new.now)) (grant_by (decode old.now)) }
{
    (a(new) == a(old)) & (c(new) == c(old)) & (d(new) == d(old)) & (e(new) == e(old))
}

// The case of a grant whose index has one before.
fn again_case(new: &Record, old: &Record) -> Option<Fault>
    ensures { result ≡ fault_if (not (grant_eqb (grant_by (decode new.now)) (grant_by (decode old.now)))) (fault 1 ((decode new.now).b ∷ [])) }
{
    if same_grant(new, old) {
        return None;
    }
    Some(Fault::new(1, &[b(new)]))
}

// The case of a first grant. A block above every older one shares no id with any, and needs no walk.
fn first_case(past: &Past, rec: &Record) -> Option<Fault>
    ensures { Indexed IdsIndexed past.now → result ≡ first_fault (grant_by (decode rec.now)) (blocks_of (taken past.now)) }
{
    let first = d(rec);
    let last = e(rec);
    if last < first {
        return Some(Fault::new(2, &[b(rec)]));
    }
    if greatest_last(past.work, past.cap, past.count) < first {
        return None;
    }
    let found = shared_with(past, first, last);
    if found.any {
        return Some(Fault::new(3, &[b(rec), found.top]));
    }
    None
}

// The ids case of a record over the records taken.
pub fn ids(past: &Past, rec: &Record) -> Option<Fault>
    ensures { Indexed FirstsIndexed past.now → Indexed IdsIndexed past.now → result ≡ ids_at (decode rec.now) (taken past.now) }
{
    if kind(rec) != 11 {
        return None;
    }
    match grant_at(past, b(rec)) {
        None => first_case(past, rec),
        Some(old) => again_case(rec, old.record),
    }
}
