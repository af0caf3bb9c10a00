// A record, judged by the checks that it concerns: a fault's words are written to the check's row, and nothing else is.
ghost use Rattle.std.specs.Prelude.{◌≡◌, length};
ghost use Rattle.record.specs.Records.{decode};
ghost use Rattle.rules.specs.OneOwnerPerKey.{install_at};
ghost use Rattle.history.specs.Pasts.{Indexed, taken};
ghost use Rattle.one_owner_per_key.specs.Columns.{OwnersIndexed};
ghost use Rattle.rows.specs.Rows.{rows_size};
ghost use Rattle.intake.specs.Steps.{JudgedIn};

use crate::step::step;
use decision::Concerned;
use descriptors::check::agreement;
use events::event_after;
use generations_rise::check::generations;
use history::past::Past;
use ids_unique::check::ids;
use meta_never_goes_back::check::meta;
use one_owner_per_key::check::{install, overlap, twice};
use record::Record;
use right_half::check::half;

// The rows of the reports with the record, after the records taken, of so many events. Its position, the number of its event, is computed here,
// once for all checks. Each check is called from here and from nowhere else.
// `rows`, `events` and `tenant` are apart: numbers and slices across calls, docs/DECISIONS.md 37.
pub fn judge(
    past: &Past,
    rows: &mut [u64],
    events: u64,
    tenant: u64,
    rec: &Record,
    concerned: Concerned,
)
    requires { length rows.old ≡ rows_size }
    ensures { JudgedIn (record { tenant = tenant }) past.now.cap past.now.log.now past.now.work.now past.now.count events rec.now concerned rows.old rows.new }
{
    let position = event_after(events, rec);
    let for_tenant = |past: &Past, rec: &Record|
        ensures { Indexed OwnersIndexed past.now → result ≡ install_at tenant (decode rec.now) (taken past.now) }
    { install(past, rec, tenant) };
    // The numbers 0 to 7 are places in the table of checks, whose order is that of the rows: the contract holds each call to it.
    step(past, rec, rows, 0, concerned.agreement, position, agreement);
    step(past, rec, rows, 1, concerned.overlap, position, overlap);
    step(past, rec, rows, 2, concerned.install, position, for_tenant);
    step(past, rec, rows, 3, concerned.twice, position, twice);
    step(past, rec, rows, 4, concerned.half, position, half);
    step(
        past,
        rec,
        rows,
        5,
        concerned.generations,
        position,
        generations,
    );
    step(past, rec, rows, 6, concerned.ids, position, ids);
    step(past, rec, rows, 7, concerned.meta, position, meta);
}
