// The splits that are registered, newest first.
ghost use Rattle.std.specs.Prelude.{◌≤◌};

use crate::cells::registering_by;
use crate::split::{Split, split_at};
use history::past::Past;

// What is left of them: the number of the record that registers the next one, 0 where they are over: the words of the lent area hold it so.
#[derive(Clone, Copy)]
pub struct Splits<'a> {
    pub past: Past<'a>,
    pub next: usize,
    ghost within: { next ≤ past.count },
}

impl<'a> Splits<'a> {
    ghost use Rattle.splits.specs.Walk.{UpTo};

    // Those of the first top records.
    pub fn of(past: &Past<'a>, top: usize) -> Splits<'a>
        requires { top ≤ past.now.count }
        ensures { UpTo past.now top result }
    {
        Splits {
            past: *past,
            next: registering_by(past, top),
        }
    }
}

impl<'a> Iterator for Splits<'a> {
    ghost use Rattle.std.specs.Iterator.{at_most};
    ghost use Rattle.splits.specs.Walk.{Steps};

    type Item = Split<'a>;

    ghost next_gives = { Steps };

    ghost remaining = { λ s. at_most s.next };

    #[inline(always)]
    fn next(&mut self) -> Option<Split<'a>> {
        let old = self.past.numbered(self.next)?;
        self.next = registering_by(&self.past, old.number - 1);
        split_at(&self.past, &old)
    }
}
