// What a new record leaves in the column of the names: the number of the latest name as of it, and above that the mark of a record
// that surpasses every earlier name.
ghost use Rattle.std.specs.Prelude.{◌≡◌, cond, ◌+◌, ◌≤◌, ◌<◌};
ghost use Rattle.record.specs.Records.{decode};
ghost use Rattle.rules.specs.MetaNeverGoesBack.{is_won};
ghost use Rattle.history.specs.Bounds.{Bounds};
ghost use Rattle.history.specs.Logs.{hist};
ghost use Rattle.meta_never_goes_back.specs.Columns.{name_before, MetaNoted};

use crate::cells::{MARK, name_before};
use crate::opposed::is_highest;
use crate::won::is_won;
use history::chain::put;
use history::past::Past;
use history::place::LATEST_NAME;
use record::Record;

// The number of the latest name with one more record.
fn name_with(past: &Past, rec: &Record) -> usize
    ensures below { result ≤ 4097 }
    ensures name { result ≡ cond (is_won (decode rec.now)) (past.now.count + 1) (name_before past.now.cap past.now.work.now past.now.count) }
{
    if is_won(rec) {
        past.count + 1
    } else {
        name_before(past.work, past.cap, past.count)
    }
}

// The word of a record: the number, and the mark. The number is an index, which has no `From` into a word: `as` is proved to lose nothing.
fn word(number: usize, highest: bool) -> u64
    requires { number ≤ 4097 }
    ensures { result ≡ number + cond highest 8192 0 }
{
    if highest {
        number as u64 + MARK
    } else {
        number as u64
    }
}

// Writes the word of the record at place count. The work area is lent for writing, so a `Past` is made only for the latest name and the mark.
pub fn note(log: &[u8], work: &mut [u64], count: usize, cap: usize, rec: &Record)
    requires { Bounds log.now work.old count cap × (count < cap) }
    ensures { MetaNoted cap (hist log.now count) (decode rec.now) work.old work.new }
{
    let past = Past {
        log,
        work,
        count,
        cap,
    };
    let latest = name_with(&past, rec);
    let highest = is_highest(&past, rec);
    put(work, LATEST_NAME * cap + count, word(latest, highest));
}
