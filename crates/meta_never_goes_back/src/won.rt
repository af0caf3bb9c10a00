// The won span of a record, its second, where it lies.
// Kinds are numbers, as the project's scope numbers them and the definitions speak of them (`is_kind`): an enum would be read back into them.
ghost use Rattle.std.specs.Prelude.{◌≡◌};
ghost use Rattle.record.specs.Records.{decode};
ghost use Rattle.rules.specs.MetaNeverGoesBack.{is_won};

use history::span::{end_of, start_of};
use record::Record;
use record::field::{kind, span_count};
use record::key::key_less;

// Whether a record names keys: a MetaApplied with a won span whose start is below its end.
pub fn is_won(rec: &Record) -> bool
    ensures { result ≡ is_won (decode rec.now) }
{
    kind(rec) == 12 && 2 <= span_count(rec) && key_less(start_of(rec, 1), end_of(rec, 1))
}
