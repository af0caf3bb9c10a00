// The look-up of a first grant: the record with the first grant at an index.
ghost use Rattle.std.specs.Prelude.{◌≡◌};
ghost use Rattle.firsts.specs.Columns.{FirstsIndexed, first_grant_at};
ghost use Rattle.rules.specs.Answers.{found_at};
ghost use Rattle.history.specs.Pasts.{taken, Indexed};

use firsts::cells::grant_at;
use history::past::Past;

// The number of that record, or nothing. As an index it has no `From` into a word: `as` is proved to lose nothing.
pub fn first_grant(past: &Past, index: u64) -> Option<u64>
    ensures { Indexed FirstsIndexed past.now → result ≡ found_at (first_grant_at index (taken past.now)) }
{
    grant_at(past, index).map(|old| old.number as u64)
}
