// An entry by numbers: whether every count that it raises still fits its width, and those counts raised.
ghost use Rattle.std.specs.Prelude.{◌≡◌, true, ◌*◌, length};
ghost use Rattle.rules.specs.Checks.{check_count};
ghost use Rattle.tally.specs.Counts.{place_count, tally_places};
ghost use Rattle.tally.specs.Entries.{tally_size};
ghost use Rattle.tally.specs.Raising.{Known, tallied_to, room_to, room_for};

use crate::count::{can_raise, raise};
use crate::place::{PLACES, TAKEN, TRACES};
use rules::CHECKS;

// What is counted: a trace at a place of each check's record and at the totals, and the records taken.
#[derive(Drop)]
pub(crate) struct Entry {
    pub places: [usize; CHECKS],
    pub taken: u64,
    ghost known: { Known places },
}

impl Entry {
    // Whether each check's count can be raised by one. A fold by `&` goes on to the end: no branch asks what the tally holds.
    fn checks_have_room(&self, tally: &[u8]) -> bool
        requires { length tally.now ≡ tally_size }
        ensures { result ≡ room_to (place_count * check_count) tally.now self.now.places self.now.taken }
    {
        (0..CHECKS).fold(true, |room, k| {
            room & can_raise(tally, PLACES * k + self.places[k], 1)
        })
    }

    // Whether those of the totals can be raised too: the traces by one, the records by those taken.
    pub(crate) fn has_room(&self, tally: &[u8]) -> bool
        requires { length tally.now ≡ tally_size }
        ensures { result ≡ room_for tally.now self.now.places self.now.taken }
    {
        let checks = self.checks_have_room(tally);
        let traces = can_raise(tally, TRACES, 1);
        let taken = can_raise(tally, TAKEN, self.taken);
        checks & traces & taken
    }

    // Raises each check's count by one.
    fn raise_checks(&self, tally: &mut [u8])
        requires { (length tally.old ≡ tally_size) × (room_for tally.old self.now.places self.now.taken ≡ true) }
        ensures { tally.new ≡ tallied_to (place_count * check_count) tally.old self.now.places self.now.taken }
    {
        for (k, at) in self.places.iter().enumerate() {
            raise(tally, PLACES * k + *at, 1);
        }
    }

    // Raises those of the totals too: the traces by one, the records by those taken.
    pub(crate) fn enter(&self, tally: &mut [u8])
        requires { (length tally.old ≡ tally_size) × (room_for tally.old self.now.places self.now.taken ≡ true) }
        ensures { tally.new ≡ tallied_to tally_places tally.old self.now.places self.now.taken }
    {
        self.raise_checks(tally);
        raise(tally, TRACES, 1);
        raise(tally, TAKEN, self.taken);
    }
}
