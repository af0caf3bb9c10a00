// The names of the records taken, from the newest on.
ghost use Rattle.std.specs.Prelude.{◌≡◌, ◌≤◌};

use crate::cells::name_before;
use history::past::Past;
use history::walk::Taken;

// What is left of a walk along the names: the number of the next name's record, 0 where it is over. From each name on, the word
// of the record before its own has the number of the name before it.
#[derive(Clone, Copy)]
pub struct Names<'a> {
    pub past: Past<'a>,
    // 0 where it is over, as the lent words hold it.
    pub next: usize,
    ghost within: { next ≤ past.count },
}

impl<'a> Iterator for Names<'a> {
    ghost use Rattle.std.specs.Iterator.{at_most};
    ghost use Rattle.meta_never_goes_back.specs.Walk.{NameSteps};

    type Item = Taken<'a>;

    ghost next_gives = { NameSteps };

    ghost remaining = { λ s. at_most s.next };

    fn next(&mut self) -> Option<Taken<'a>> {
        if self.next == 0 {
            return None;
        }
        let at = self.next - 1;
        let name = Taken {
            number: self.next,
            record: self.past.record(at),
        };
        self.next = name_before(self.past.work, self.past.cap, at);
        Some(name)
    }
}

impl<'a> Names<'a> {
    ghost use Rattle.meta_never_goes_back.specs.Columns.{name_before};

    // All names.
    pub fn new(past: &Past<'a>) -> Names<'a>
        ensures past { result.past ≡ past.now }
        ensures next { result.next ≡ name_before past.now.cap past.now.work.now past.now.count }
    {
        Names {
            past: *past,
            next: name_before(past.work, past.cap, past.count),
        }
    }
}
