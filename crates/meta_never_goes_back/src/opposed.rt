// The names that can be in conflict with a new one: most records have none, and need no walk. The scan for one is short
// where a recent name covers the new one.
ghost use Rattle.std.specs.Prelude.{◌≡◌, false, ◌&&◌, ◌||◌, ltb, leb, None};
ghost use Rattle.record.specs.Records.{decode};
ghost use Rattle.rules.specs.declared.Verdict.TheVariants.{Pass};
ghost use Rattle.rules.specs.MetaNeverGoesBack.{name_by, names, won_fault, meta_at};
ghost use Rattle.rules.specs.Reports.{at_last, report_of};
ghost use Rattle.meta_never_goes_back.specs.Columns.{surpasses, is_highest, MetaIndexed};
ghost use Rattle.meta_never_goes_back.specs.Walk.{meets, opposes, contains, covers_all};
ghost use Rattle.history.specs.Pasts.{taken, Indexed};

use crate::cells::is_marked;
use crate::names::Names;
use crate::won::is_won;
use history::past::Past;
use history::span::{end_of, start_of};
use record::Record;
use record::field::{b, d};
use record::key::key_less;

// Whether the numbers of an earlier name are against those of a new one.
fn is_against(index: u64, generation: u64, old_index: u64, old_generation: u64) -> bool
    ensures { result ≡ (ltb old_index index && ltb generation old_generation) || (leb index old_index && ltb old_generation generation) }
{
    ((old_index < index) & (generation < old_generation))
        | ((index <= old_index) & (old_generation < generation))
}

// Whether an earlier record's won span meets that of a new one.
fn does_meet(rec: &Record, old: &Record) -> bool
    ensures { result ≡ meets (decode rec.now) (name_by (decode old.now)) }
{
    key_less(start_of(old, 1), end_of(rec, 1)) && key_less(start_of(rec, 1), end_of(old, 1))
}

// Whether an earlier name can be in conflict with a new one: the numbers first, the keys only where those are against.
fn does_oppose(rec: &Record, old: &Record) -> bool
    ensures { result ≡ opposes (decode rec.now) (name_by (decode old.now)) }
{
    is_against(b(rec), d(rec), b(old), d(old)) && does_meet(rec, old)
}

// Whether neither number of an earlier name is lower than that of a new one.
fn is_not_lower(index: u64, generation: u64, old_index: u64, old_generation: u64) -> bool
    ensures { result ≡ leb index old_index && leb generation old_generation }
{
    (index <= old_index) & (generation <= old_generation)
}

// Whether an earlier record's won span has every key of that of a new one.
fn does_contain(rec: &Record, old: &Record) -> bool
    ensures { result ≡ contains (decode rec.now) (name_by (decode old.now)) }
{
    !key_less(start_of(rec, 1), start_of(old, 1)) && !key_less(end_of(old, 1), end_of(rec, 1))
}

// Whether an earlier name covers a new one: the numbers first, the keys only where neither of those is lower.
fn does_cover(rec: &Record, old: &Record) -> bool
    ensures { result ≡ covers_all (decode rec.now) (name_by (decode old.now)) }
{
    is_not_lower(b(rec), d(rec), b(old), d(old)) && does_contain(rec, old)
}

// Whether a new name surpasses an earlier one, which has a lower index and no higher generation: such a name is neither
// against the new one nor covers it.
fn does_surpass(rec: &Record, old: &Record) -> bool
    ensures { result ≡ surpasses (decode rec.now) (name_by (decode old.now)) }
{
    (b(old) < b(rec)) & (d(old) <= d(rec))
}

// Whether a record names and surpasses every earlier name: past a marked one that it surpasses it does.
pub fn is_highest(past: &Past, rec: &Record) -> bool
    ensures { Indexed MetaIndexed past.now → result ≡ is_highest (decode rec.now) (taken past.now) }
{
    if !is_won(rec) {
        return false;
    }
    for old in Names::new(past) {
        if !does_surpass(rec, old.record) {
            return false;
        }
        if is_marked(past.work, past.cap, old.number - 1) {
            return true;
        }
    }
    true
}

// Whether there is a name to walk for: false only where, while the report is a pass, no key of a new name is in conflict. Most
// names are surpassed, and passed over by two comparisons; past a marked one of them the scan ends, and so it does at one that
// covers the new one, since what stands at its keys is not lower either; most names repeat a recent one.
pub fn any_opposed(past: &Past, rec: &Record) -> bool
    ensures { Indexed MetaIndexed past.now → (report_of (at_last meta_at) (taken past.now)).verdict ≡ Pass
        → result ≡ false → won_fault (decode rec.now) (names (taken past.now)) ≡ None }
{
    for old in Names::new(past) {
        if does_surpass(rec, old.record) {
            if is_marked(past.work, past.cap, old.number - 1) {
                return false;
            }
        } else if does_oppose(rec, old.record) {
            return true;
        } else if does_cover(rec, old.record) {
            return false;
        }
    }
    false
}
