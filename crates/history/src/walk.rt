// The records of one bucket, from the newest on, each with its number.
ghost use Rattle.std.specs.Prelude.{◌≡◌, ◌*◌, ◌≤◌, length};

use crate::chain::link;
use crate::log::record_at;
use record::Record;

// A record that was taken, and its number.
#[derive(Clone, Copy)]
pub struct Taken<'a> {
    pub number: usize,
    pub record: &'a Record,
}

// What is left of a walk along a chain: the number of the next record, 0 where it is over, as the lent words hold it, and the column of the
// links.
#[derive(Clone, Copy)]
pub struct Chain<'a> {
    pub log: &'a [u8],
    pub links: &'a [u64],
    pub next: usize,
    ghost log_holds: { 368 * next ≤ length log.now },
    ghost links_hold: { next ≤ length links.now },
}

impl<'a> Iterator for Chain<'a> {
    ghost use Rattle.std.specs.Iterator.{at_most};
    ghost use Rattle.history.specs.Pasts.{Steps};

    type Item = Taken<'a>;

    ghost next_gives = { Steps };

    ghost remaining = { λ s. at_most s.next };

    #[inline(always)]
    fn next(&mut self) -> Option<Taken<'a>> {
        if self.next == 0 {
            return None;
        }
        let at = self.next - 1;
        let taken = Taken {
            number: self.next,
            record: record_at(self.log, at),
        };
        self.next = link(self.links, at, at);
        Some(taken)
    }
}
