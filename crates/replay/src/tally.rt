// A file of entries, and how many of them came out right and wrong.
use crate::read::Stop;
use std::fmt;
use std::io::Read;

// No file has more entries.
const MOST: u64 = 1000000;

#[derive(Clone, Copy, Default)]
pub struct Tally {
    right: u64,
    wrong: u64,
}

impl Tally {
    // One entry more.
    fn count(&mut self, right: bool) {
        if right {
            self.right = self.right.saturating_add(1);
        } else {
            self.wrong = self.wrong.saturating_add(1);
        }
    }
}

impl fmt::Display for Tally {
    fn fmt<W: fmt::Write>(&self, f: &mut fmt::Formatter<W>) -> fmt::Result {
        let right = self.right;
        let wrong = self.wrong;
        write!(f, "{right} right, {wrong} wrong")
    }
}

// All entries of the file, counted: `next` reads one, and says whether it came out right. One that is cut short counts as wrong: the vectors are damaged then.
pub fn counted<R: Read, F: Fn(&mut R) -> Result<bool, Stop> + Drop>(file: &mut R, next: F) -> Tally
    requires { F.IsAlwaysCallable next }
{
    let mut tally = Tally::default();
    for _ in 0..MOST {
        match next(file) {
            Ok(right) => tally.count(right),
            Err(Stop::Broken) => {
                // No switch: what is counted is what `next` says elsewhere, and an entry that is cut short is not right.
                tally.count(false);
                break;
            }
            Err(Stop::End) => break,
        }
    }
    tally
}
