// The campaign tally: for each check how many traces passed and how many faulted by kind, with traces and records taken in total. It
// is kept in bytes, and a finished judge is entered into them.
#![tactic(auto)]

mod count;
mod entry;
mod place;
mod unused;

ghost use Rattle.std.specs.Prelude.{◌≡◌, length};
ghost use Rattle.rules.specs.Checks.{check_count};
ghost use Rattle.tally.specs.Entries.{refusal_number, EntersBy};
ghost use Rattle.tally.specs.Raising.{EntersPlaces};

use crate::count::WIDTH;
use crate::entry::Entry;
use crate::place::{PLACES, RECORDS, all_known, find_places};
use crate::unused::unused_clear;
use judge::state::Judge;
use rules::CHECKS;

// The bytes of a tally.
pub const TALLY_SIZE: usize = WIDTH * PLACES * RECORDS;

// Why an entry was refused. It is no `decision::refusal::Refusal`: a full count is 9, which no call of the judge gives, and the type says
// which three can come.
#[derive(Clone, Copy)]
pub enum Refusal {
    Unfit,
    Unused,
    Full,
}

// What an entry gives: its refusal, where it was refused, and the judge as it was given.
#[derive(Clone, Copy)]
pub struct Entered {
    pub refusal: Result<(), Refusal>,
    pub judge: Judge,
}

// The number of a refusal, 0 where there was none. No `From` can say it: a `Result` and a number are both std's. The judge's `number_of` has
// another type of refusals.
pub fn number_of(refusal: Result<(), Refusal>) -> u64
    ensures { result ≡ refusal_number refusal }
{
    match refusal {
        Ok(()) => 0,
        Err(Refusal::Unfit) => 5,
        Err(Refusal::Unused) => 4,
        Err(Refusal::Full) => 9,
    }
}

// Counts a judge, or says why not: then the tally is as it stood.
pub fn enter(judge: Judge, tally: &mut [u8]) -> Entered
    ensures { EntersBy tally.old judge result tally.new }
{
    let places = find_places(judge.reports);
    let fit = judge.fits();
    let judge = fit.judge;
    let refusal = enter_places(tally, places, judge.count, fit.holds);
    Entered { refusal, judge }
}

// The same by numbers: the places of the verdicts, the records taken, and whether the judge is one. Everything is tested before
// anything is added.
#[tactic(auto, using(crate::proofs::Entering::known_of), unfolding(crate::specs::Raising::refusal_by))]
fn enter_places(
    tally: &mut [u8],
    places: [usize; CHECKS],
    count: usize,
    fit: bool,
) -> Result<(), Refusal>
    ensures { EntersPlaces tally.old places count fit (refusal_number result) tally.new }
{
    if tally.len() != TALLY_SIZE || !fit || !all_known(&places) {
        return Err(Refusal::Unfit);
    }
    if !unused_clear(tally) {
        return Err(Refusal::Unused);
    }
    // An index has no `From` into a word: `as` is proved to lose nothing.
    let taken = count as u64;
    let entry = Entry { places, taken };
    if !entry.has_room(tally) {
        return Err(Refusal::Full);
    }
    entry.enter(tally);
    Ok(())
}
