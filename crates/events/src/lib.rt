// Events: whether a record continues one, whether it has one to continue, and how many there are with it.
// Kinds are numbers, as the project's scope numbers them and the definitions speak of them (`is_kind`): an enum would be read back into them.
#![tactic(auto)]

ghost use Rattle.std.specs.Prelude.{◌≡◌, ◌*◌, ◌≤◌, length};
ghost use Rattle.record.specs.Records.{decode};
ghost use Rattle.rules.specs.Events.{continues, goes_on, stray};
ghost use Rattle.history.specs.Logs.{hist};
ghost use Rattle.events.specs.Numbers.{event_in};

use history::log::record_at;
use record::Record;
use record::field::{b, flag, kind, node};

// MetaApplied, the one kind whose records continue.
const META_APPLIED: u8 = 12;

// Whether a record continues the event before it.
pub fn continues(rec: &Record) -> bool
    ensures { result ≡ continues (decode rec.now) }
{
    (kind(rec) == META_APPLIED) & (flag(rec) == 1)
}

// How many events there are with one more record, after so many: in a word, whose greatest number stays.
pub fn event_after(events: u64, rec: &Record) -> u64
    ensures { result ≡ event_in events (decode rec.now) }
{
    if continues(rec) {
        events
    } else {
        events.saturating_add(1)
    }
}

// Whether a record goes on with the event of the one before it.
fn goes_on(rec: &Record, last: &Record) -> bool
    ensures { result ≡ goes_on (decode rec.now) (decode last.now) }
{
    (kind(last) == META_APPLIED) & (node(rec) == node(last)) & (b(rec) == b(last))
}

// Refusal 11: whether a record that continues has no event to continue, after the first n of a log.
#[tactic(auto, using(crate::proofs::Numbers::stray_first, crate::proofs::Numbers::stray_after))]
pub fn stray(log: &[u8], n: usize, rec: &Record) -> bool
    requires { 368 * n ≤ length log.now }
    ensures { result ≡ stray (decode rec.now) (hist log.now n) }
{
    continues(rec) && (n == 0 || !goes_on(rec, record_at(log, n - 1)))
}
