// Text and numbers, written into a buffer one after the other. Each method asks for the room that the longest takes, and so none can
// fail, as a `write!` could.
ghost use Rattle.std.specs.Prelude.{◌+◌, ◌≤◌, length};
ghost use Rattle.sheet_text.specs.Sheets.{decimal, spaced};
ghost use Rattle.sheet_text.specs.Appends.{Appended};

// A buffer, and where the text in it ends.
#[derive(Drop)]
pub(crate) struct Text<'a> {
    pub out: &'a mut [u8],
    pub end: usize,
}

impl Text<'_> {
    // Bytes as they are.
    pub(crate) fn push(&mut self, bytes: &[u8])
        requires { self.old.end + length bytes.now ≤ length self.old.out.now }
        ensures { Appended (length bytes.now) self.old self.new bytes.now }
    {
        let end = self.end + bytes.len();
        self.out[self.end..end].copy_from_slice(bytes);
        self.end = end;
    }

    // A number in decimal: its tenth part first, then its last digit.
    // A digit is below 10: there is no `From` that narrows it to a byte, and `as` loses nothing.
    fn push_digits(&mut self, n: u64)
        requires { self.old.end + length (decimal n) ≤ length self.old.out.now }
        ensures { Appended (length (decimal n)) self.old self.new (decimal n) }
    {
        if n < 10 {
            self.push(&[b'0' + n as u8]);
        } else {
            self.push_digits(n / 10);
            self.push(&[b'0' + (n % 10) as u8]);
        }
    }

    // A number after a space: at most 21 bytes. That it is built like `push_pass` is chance: that one writes a line, which is no number.
    pub(crate) fn push_number(&mut self, n: u64)
        requires { self.old.end + 21 ≤ length self.old.out.now }
        ensures { Appended 21 self.old self.new (spaced n) }
    {
        self.push(b" ");
        self.push_digits(n);
    }
}
