// One record, judged without being taken.
ghost use Rattle.std.specs.Prelude.{◌≡◌, IfOk, length};
ghost use Rattle.rows.specs.Rows.{rows_size};
ghost use Rattle.decision.specs.Refusals.{outcome_number};
ghost use Rattle.intake.specs.Takes.{PreviewsIn};

use crate::judge::judge;
use decision::decide;
use decision::refusal::Refusal;
use history::past::Past;
use record::Record;

// Gives the record that the bytes are, and makes the rows those that it would leave after n others of so many events; or gives its refusal, and
// the rows are as they stood. Log and work area are lent for reading only. Numbers and slices are handed over, and no judge: docs/DECISIONS.md 37.
pub fn preview<'a>(
    log: &[u8],
    work: &[u64],
    rows: &mut [u64],
    n: usize,
    events: u64,
    cap: usize,
    tenant: u64,
    bytes: &'a [u8],
) -> Result<&'a Record, Refusal>
    requires { length rows.old ≡ rows_size }
    ensures judges { PreviewsIn (record { tenant = tenant }) cap n events log.now work.now rows.old bytes.now (outcome_number result) rows.new }
    ensures whole { IfOk result (λ rec. rec.now ≡ bytes.now) }
{
    let decided = decide(log, work.len(), n, cap, bytes)?;
    let past = Past {
        log,
        work,
        count: n,
        cap,
    };
    judge(
        &past,
        rows,
        events,
        tenant,
        decided.record,
        decided.concerned,
    );
    Ok(decided.record)
}
