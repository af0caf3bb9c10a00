// The records at which a node came to hold a range that it did not hold, since its latest end, newest first: whatever it
// holds is among their ranges.
ghost use Rattle.std.specs.Prelude.{◌≡◌, ◌≤◌};

use crate::cells::{end_by, latest_newly, newly_before};
use crate::held::latest_of;
use history::past::Past;
use history::walk::Taken;
use record::named::NodeId;

// What is left of them: the number of the next one, and that of the end, no later than which there is none.
// The next one's is 0 where they are over: the words of the lent area hold it so.
#[derive(Clone, Copy)]
pub struct NewlyHeld<'a> {
    pub past: Past<'a>,
    pub next: usize,
    pub ended: usize,
    ghost within: { next ≤ past.count },
}

impl<'a> NewlyHeld<'a> {
    ghost use Rattle.one_owner_per_key.specs.Newly.{SinceEnd};

    // Those of a node.
    pub fn of(past: &Past<'a>, node: NodeId) -> NewlyHeld<'a>
        ensures { SinceEnd past.now node.0 result }
    {
        let last = latest_of(past, past.count, node);
        NewlyHeld {
            past: *past,
            next: latest_newly(past.work, past.cap, last),
            ended: end_by(past, last),
        }
    }
}

impl<'a> Iterator for NewlyHeld<'a> {
    ghost use Rattle.std.specs.Iterator.{at_most};
    ghost use Rattle.one_owner_per_key.specs.Newly.{Steps};

    type Item = Taken<'a>;

    ghost next_gives = { Steps };

    ghost remaining = { λ s. at_most s.next };

    #[inline(always)]
    fn next(&mut self) -> Option<Taken<'a>> {
        if self.next <= self.ended {
            return None;
        }
        let taken = self.past.numbered(self.next)?;
        self.next = newly_before(self.past.work, self.past.cap, self.next);
        Some(taken)
    }
}
