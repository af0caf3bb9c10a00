// The generations check at a new record.
ghost use Rattle.std.specs.Prelude.{◌≡◌};
ghost use Rattle.record.specs.Records.{decode};
ghost use Rattle.rules.specs.declared.Verdict.TheVariants.{Pass};
ghost use Rattle.rules.specs.GenerationsRise.{writes, rise_fault, generations_at};
ghost use Rattle.rules.specs.Reports.{at_last, report_of};
ghost use Rattle.firsts.specs.Columns.{FirstsIndexed, write_of};
ghost use Rattle.descriptors.specs.Columns.{DescriptorsIndexed};
ghost use Rattle.generations_rise.specs.Columns.{GenerationsIndexed};
ghost use Rattle.generations_rise.specs.Answers.{written_as, against};
ghost use Rattle.history.specs.Pasts.{taken, Indexed};

use crate::cells::{last_write_at, written_at};
use crate::write::{Written, counts_as};
use history::past::Past;
use history::span::start_of;
use record::Record;
use record::field::{a, b};
use rules::Fault;

// Whether a key's last write, by a range at a generation, opposes a new one.
fn is_against(range: u64, generation: u64, by: u64, last: u64) -> bool
    ensures { result ≡ against range generation by last }
{
    (generation < last) | ((by != range) & (last == generation))
}

// The case of a write that counts at a generation: only the key's last write is looked at.
#[tactic(auto, using(crate::proofs::Cases::rise_none, crate::proofs::Cases::rise_against, crate::proofs::Cases::rise_clear))]
fn rise_case(past: &Past, rec: &Record, generation: u64) -> Option<Fault>
    ensures { let x = decode rec.now in
        let h = taken past.now in
        Indexed GenerationsIndexed past.now → (report_of (at_last generations_at) h).verdict ≡ Pass
        → result ≡ rise_fault (write_of x h) generation (writes h) }
{
    let write = last_write_at(past, start_of(rec, 0))?;
    let range = a(rec);
    let by = a(write.record);
    let last = written_at(past.work, past.cap, write.number - 1);
    if is_against(range, generation, by, last) {
        return Some(Fault::new(2, &[range, b(rec), generation, last, by]));
    }
    None
}

// The generations case of a record whose write counts so, while the report is a pass.
#[tactic(auto, using(crate::proofs::Cases::case_not, crate::proofs::Cases::case_unrated, crate::proofs::Cases::case_rated))]
pub fn generations_case(past: &Past, rec: &Record, written: Written) -> Option<Fault>
    ensures { let x = decode rec.now in
        let h = taken past.now in
        Indexed GenerationsIndexed past.now → (report_of (at_last generations_at) h).verdict ≡ Pass → written ≡ written_as x h
        → result ≡ generations_at x h }
{
    match written {
        Written::Not => None,
        Written::Unrated => Some(Fault::new(1, &[a(rec), b(rec)])),
        Written::Rated(generation) => rise_case(past, rec, generation),
    }
}

// The generations case of a record over the records taken, while the report is a pass.
pub fn generations(past: &Past, rec: &Record) -> Option<Fault>
    ensures { Indexed FirstsIndexed past.now → Indexed DescriptorsIndexed past.now → Indexed GenerationsIndexed past.now
        → (report_of (at_last generations_at) (taken past.now)).verdict ≡ Pass → result ≡ generations_at (decode rec.now) (taken past.now) }
{
    generations_case(past, rec, counts_as(past, rec))
}
