// The records of a tally and their places: which of them a verdict counts at, and which are used.
// Kinds are numbers, as the project's scope numbers them and the definitions speak of them.
ghost use Rattle.std.specs.Prelude.{◌≡◌, ◌≤◌, length};
ghost use Rattle.rules.specs.Checks.{check_count};
ghost use Rattle.tally.specs.Counts.{verdict_place, used_places};
ghost use Rattle.tally.specs.Raising.{PlacesOf, places_known};

use rules::{CHECKS, Report, Verdict, kinds_of};
use std::array;

// The places of a record.
pub const PLACES: usize = 10;

// The records: one for each check in printing order, and one for the totals.
pub const RECORDS: usize = CHECKS + 1;

// The totals' two places in the tally: the traces, and the records taken.
pub(crate) const TRACES: usize = PLACES * CHECKS;

pub(crate) const TAKEN: usize = TRACES + 1;

// The used places of the totals.
const TOTALS: usize = 2;

// The place of a verdict in the record of a check with so many kinds; past the record where the check lacks the kind.
fn verdict_place(kinds: usize, verdict: Verdict) -> usize
    ensures { result ≡ verdict_place kinds verdict }
{
    match verdict {
        Verdict::Pass => 0,
        Verdict::Faulted(kind) => {
            let at = usize::from(kind);
            if 1 <= at && at <= kinds { at } else { PLACES }
        }
    }
}

// The place of each report's verdict.
pub(crate) fn find_places(reports: [Report; CHECKS]) -> [usize; CHECKS]
    ensures { PlacesOf reports result }
{
    array::from_fn(|k| verdict_place(kinds_of(k), reports[k].verdict))
}

// Whether each is a place of a record. A fold by `&` goes on to the end: no branch asks what the places are.
pub(crate) fn all_known(places: &[usize; CHECKS]) -> bool
    ensures { result ≡ places_known places.now }
{
    places.iter().fold(true, |known, at| known & (*at < PLACES))
}

// How many places of a record are used: of a check its passes and a place for each kind, of the last two.
#[tactic(auto, using(crate::proofs::Counts::kinds_few), unfolding(crate::specs::Counts::used_places))]
pub(crate) fn used_places(k: usize) -> usize
    requires { k ≤ check_count }
    ensures { result ≡ used_places k }
{
    if k < CHECKS { kinds_of(k) + 1 } else { TOTALS }
}
