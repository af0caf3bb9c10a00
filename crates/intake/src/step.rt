// One more record, judged by a check.
ghost use Rattle.std.specs.Prelude.{◌≡◌, ◌*◌, ◌<◌, length, get_or, eqb};
ghost use Rattle.rules.specs.Checks.{check_count};
ghost use Rattle.rows.specs.Rows.{rows_size};
ghost use Rattle.intake.specs.Steps.{AsksIn};

use history::past::Past;
use record::Record;
use rows::{REPORT_WORDS, enter};
use rules::Fault;

// Whether the report of the check at place k is a pass.
fn passes(rows: &[u64], k: usize) -> bool
    requires { (length rows.now ≡ rows_size) × (k < check_count) }
    ensures { result ≡ eqb (get_or rows.now (7 * k) 0) 0 }
{
    // The row is words, as a host keeps it, and is read as it lies: its first is a fault's kind, 0 for none.
    rows[REPORT_WORDS * k] == 0
}

// The row of the check at place k with the record, after the records taken. The check is asked only where the record concerns it and its report
// is still a pass: its row begins with 0.
pub fn step<F: FnOnce(&Past, &Record) -> Option<Fault>>(
    past: &Past,
    rec: &Record,
    rows: &mut [u64],
    k: usize,
    concerned: bool,
    position: u64,
    check: F,
)
    requires rows { (length rows.old ≡ rows_size) × (k < check_count) }
    requires check { F.IsAlwaysCallable check }
    ensures { AsksIn (λ c. (p : _) × (r : _) × (p.now ≡ past.now) × (r.now ≡ rec.now) × F.post check p r c) k concerned position rows.old rows.new }
{
    if concerned && passes(rows, k) {
        enter(rows, k, check(past, rec), position);
    }
}
