// The log: the record at a place, and one more.
ghost use Rattle.std.specs.Prelude.{◌≡◌, ◌+◌, ◌*◌, ◌≤◌, length};
ghost use Rattle.history.specs.Logs.{bytes_at, Appended};

use record::Record;
use record::copy::copy_items;
use record::limits::RECORD_SIZE;

// The record at a place.
#[tactic(auto, unfolding(crate::specs::Logs::bytes_at))]
pub fn record_at(log: &[u8], i: usize) -> &Record
    requires { 368 * i + 368 ≤ length log.now }
    ensures { result.now ≡ bytes_at i log.now }
{
    let at = RECORD_SIZE * i;
    log[at..at + RECORD_SIZE].as_array().unwrap()
}

// Writes a record at the place after the first count.
pub fn append(log: &mut [u8], count: usize, rec: &Record)
    requires { 368 * count + 368 ≤ length log.old }
    ensures { Appended log.old log.new count rec.now }
{
    let at = RECORD_SIZE * count;
    copy_items(&mut log[at..at + RECORD_SIZE], rec);
}
