// The names of the checks, in printing order: here alone the code has them.
ghost use Rattle.std.specs.Prelude.{◌≡◌, ◌+◌, ◌≤◌, ◌<◌, length};
ghost use Rattle.rules.specs.Checks.{check_count};
ghost use Rattle.sheet_text.specs.Sheets.{name_size, name_at};
ghost use Rattle.sheet_text.specs.Appends.{Appended};

use crate::text::Text;
use rules::CHECKS;

const NAMES: [&[u8]; CHECKS] = [
    b"agreement",
    b"overlap",
    b"install",
    b"twice",
    b"half",
    b"generations",
    b"ids",
    b"meta",
];

// The name of the check at a place of the table.
fn name(check: usize) -> &'static [u8]
    requires { check < check_count }
    ensures { result.now ≡ name_at check }
{
    NAMES[check]
}

impl Text<'_> {
    // The name of the check at a place of the table.
    pub(crate) fn push_name(&mut self, check: usize)
        requires { (self.old.end + name_size ≤ length self.old.out.now) × (check < check_count) }
        ensures { Appended name_size self.old self.new (name_at check) }
    {
        self.push(name(check));
    }
}
