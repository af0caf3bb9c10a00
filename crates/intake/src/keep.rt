// One record, kept: noted in the work area and written to the log.
ghost use Rattle.intake.specs.Takes.{Keepable, KeptIn};

use crate::note::note;
use history::log::append;
use record::Record;

// Keeps a record that is not refused, as the next after n others. `take` calls it, and so does the judge's `feed`, for speed: with two
// callers it stays a function of its own when compiled, and `take`, which is then small, becomes a part of its callers.
// Log and work area are both lent for writing, and so are no `Past`: they and the numbers are handed over one by one, docs/DECISIONS.md 37.
pub fn keep(log: &mut [u8], work: &mut [u64], n: usize, cap: usize, rec: &Record)
    requires { Keepable cap n log.old work.old }
    ensures { KeptIn cap n log.old work.old rec.now log.new work.new }
{
    note(log, work, n, cap, rec);
    append(log, n, rec);
}
