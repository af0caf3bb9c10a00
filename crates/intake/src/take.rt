// One record, taken or refused.
ghost use Rattle.std.specs.Prelude.{◌≡◌, IfOk, length};
ghost use Rattle.rows.specs.Rows.{rows_size};
ghost use Rattle.decision.specs.Refusals.{outcome_number};
ghost use Rattle.intake.specs.Takes.{TakesIn};

use crate::keep::keep;
use crate::preview::preview;
use decision::refusal::Refusal;
use record::Record;

// Takes the record that the bytes are, after n others of so many events, and gives it; or gives its refusal, and everything is as it stood.
// Numbers and slices are handed over, and no judge: its state's words and its reports are kept otherwise by each caller, docs/DECISIONS.md 37.
pub fn take<'a>(
    log: &mut [u8],
    work: &mut [u64],
    rows: &mut [u64],
    n: usize,
    events: u64,
    cap: usize,
    tenant: u64,
    bytes: &'a [u8],
) -> Result<&'a Record, Refusal>
    requires { length rows.old ≡ rows_size }
    ensures takes { TakesIn (record { tenant = tenant }) cap n events log.old work.old rows.old bytes.now (outcome_number result) log.new work.new rows.new }
    ensures whole { IfOk result (λ rec. rec.now ≡ bytes.now) }
{
    let rec = preview(log, work, rows, n, events, cap, tenant, bytes)?;
    keep(log, work, n, cap, rec);
    Ok(rec)
}
