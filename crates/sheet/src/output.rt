// Writing to standard output, so that a failed write is told.
ghost use Rattle.std.specs.Io.{WritesAtMost};
ghost use Rattle.sheet.specs.Calls.{Short};

use crate::input::TRIES;
use std::io;
use std::io::{Error, ErrorKind, Write};

// Where writing stopped: how many bytes were taken before a write failed, and why it failed.
#[derive(Clone, Copy)]
pub struct Stopped {
    pub done: usize,
    pub error: Error,
}

// One write, tried again where it was interrupted: how many bytes it took, or why it failed. It is a loop like that of `read_some`:
// one function for both, over a closure, would have to be shown of each call that its number is within the buffer that it captures.
// It was tried, and that proof did not close.
fn write_some<W: Write>(to: &mut W, buf: &[u8]) -> io::Result<usize>
    ensures { WritesAtMost result buf.now }
{
    for _ in 0..TRIES {
        match to.write(buf) {
            Err(e) if e.kind() == ErrorKind::Interrupted => {}
            written => return written,
        }
    }
    Err(Error::from(ErrorKind::Interrupted))
}

// Writes the bytes, in pieces where the output takes no more at once.
pub fn write_output<W: Write>(to: &mut W, buf: &[u8]) -> Result<(), Stopped>
    ensures { Short result buf.now }
{
    // No `for`, as in `read_input`.
    let mut done = 0usize;
    while done < buf.len() {
        let put = write_some(to, &buf[done..]).map_err(|error| Stopped { done, error })?;
        // No bytes are how a write says that the output takes no more.
        if put == 0 {
            let error = Error::from(ErrorKind::WriteZero);
            return Err(Stopped { done, error });
        }
        done += put;
    }
    Ok(())
}
