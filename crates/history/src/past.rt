// The records taken so far, as a look-back is lent them: the log that holds them, and the columns of the work area that index it.
ghost use Rattle.std.specs.Prelude.{◌*◌, ◌≤◌, ◌<◌, length};

use crate::chain::link;
use crate::log::record_at;
use crate::walk::{Chain, Taken};
use record::Record;

// Lengths alone are asked for: every look-back is safe and ends whatever the log and the work area hold.
#[derive(Clone, Copy)]
pub struct Past<'a> {
    pub log: &'a [u8],
    pub work: &'a [u64],
    pub count: usize,
    pub cap: usize,
    ghost log_holds: { 368 * count ≤ length log.now },
    ghost work_holds: { 32 * cap ≤ length work.now },
    ghost within: { count ≤ cap },
    ghost positive: { 0 < cap },
    ghost small: { cap ≤ 4096 },
}

impl<'a> Past<'a> {
    ghost use Rattle.std.specs.Prelude.{◌≡◌, ◌+◌, get_or};
    ghost use Rattle.history.specs.Logs.{bytes_at};
    ghost use Rattle.history.specs.Columns.{clamp, number_in};
    ghost use Rattle.history.specs.Pasts.{Begins, IsFound, number_of};

    // The record at a place.
    pub fn record(&self, i: usize) -> &'a Record
        requires { i < self.now.count }
        ensures { result.now ≡ bytes_at i self.now.log.now }
    {
        record_at(self.log, i)
    }

    // The record with a number, where there is one: none has 0, nor a number above the count.
    pub fn numbered(&self, number: usize) -> Option<Taken<'a>>
        ensures found { IsFound self.now result }
        ensures is { number_of result ≡ clamp number self.now.count }
    {
        if number == 0 || self.count < number {
            return None;
        }
        let record = self.record(number - 1);
        Some(Taken { number, record })
    }

    // The word at a place of a column.
    pub fn word(&self, column: usize, place: usize) -> u64
        requires { (column < 32) × (place < self.now.cap) }
        ensures { result ≡ get_or self.now.work.now (column * self.now.cap + place) 0 }
    {
        self.work[column * self.cap + place]
    }

    // A record's number in a word, 0 where it is above top: so whatever the work area holds, a look-back goes down.
    pub fn number(&self, column: usize, place: usize, top: usize) -> usize
        requires { (column < 32) × (place < self.now.cap) }
        ensures { (result ≤ top) × (result ≡ clamp (get_or self.now.work.now (column * self.now.cap + place) 0) top) }
    {
        link(self.work, column * self.cap + place, top)
    }

    // A record's number in a column, as of the record with a number; 0 as of the beginning before any.
    // A number is also the length of the beginning that ends with its record, and the lent words hold 0 for the one before any record; `numbered`
    // makes it `None`.
    pub fn number_as_of(&self, column: usize, last: usize) -> usize
        requires { (column < 32) × (last ≤ self.now.cap) }
        ensures { (result ≤ last) × (result ≡ number_in (column * self.now.cap) self.now.work.now last) }
    {
        if last == 0 {
            0
        } else {
            self.number(column, last - 1, last)
        }
    }

    // The records of a bucket, from the newest on: by a column of heads, a word for each bucket, and one of links, a word for each record.
    pub fn chain(&self, heads: usize, links: usize, bucket: usize) -> Chain<'a>
        requires { (heads < 32) × (links < 32) × (bucket < self.now.cap) }
        ensures { Begins self.now heads links bucket result }
    {
        let next = self.number(heads, bucket, self.count);
        Chain {
            log: self.log,
            links: &self.work[links * self.cap..(links + 1) * self.cap],
            next,
        }
    }
}
