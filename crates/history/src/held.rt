// Two values compared where they lie in their records: no span and no voter is copied.
// Kinds are numbers, as the project's scope numbers them and the definitions speak of them (`is_kind`): an enum would be read back into them.
ghost use Rattle.std.specs.Prelude.{◌≡◌, true, ◌↔◌};
ghost use Rattle.record.specs.Records.{decode};
ghost use Rattle.rules.specs.Descriptors.{held_state, held_by, held_eqb, Same, named_eqb, SameNamed};

use crate::span::{end_of, start_of};
use record::Record;
use record::field::{code, d, kind};
use record::key::{same_key, same_voters};
use record::named::RangeState;

// The state, which is not the sub-code's where the record is a RangeCreated: that one is Live, whatever its cause.
// A `From` would say that every record has a state.
fn state(rec: &Record) -> RangeState
    ensures { result ≡ held_state (decode rec.now) }
{
    if kind(rec) == 1 {
        RangeState::Live
    } else {
        RangeState::from(code(rec))
    }
}

// Whether what a MetaApplied names of a value is the same in two, which is exactly when start, end and voters all are.
// A derived `==` would need two values built, and their keys lie padded in their places.
pub fn same_named(a: &Record, b: &Record) -> bool
    ensures answer { result ≡ named_eqb (held_by (decode a.now)) (held_by (decode b.now)) }
    ensures exactly { (result ≡ true) ↔ SameNamed (held_by (decode a.now)) (held_by (decode b.now)) }
{
    same_key(start_of(a, 0), start_of(b, 0))
        & same_key(end_of(a, 0), end_of(b, 0))
        & same_voters(a, b)
}

// Whether two values are the same, which is exactly when start, end, generation, voters and state all are.
// An `==` of the records would not do: their node and index are no part of the value.
pub fn same_held(a: &Record, b: &Record) -> bool
    ensures answer { result ≡ held_eqb (held_by (decode a.now)) (held_by (decode b.now)) }
    ensures exactly { (result ≡ true) ↔ Same (held_by (decode a.now)) (held_by (decode b.now)) }
{
    if d(a) != d(b) {
        return false;
    }
    same_named(a, b) & (state(a) == state(b))
}
