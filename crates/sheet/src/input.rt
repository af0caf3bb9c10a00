// Reading standard input to its end, so that a failed read is told apart from the end.
ghost use Rattle.std.specs.Io.{ReadsAtMost};
ghost use Rattle.sheet.specs.Calls.{Held};

use std::io;
use std::io::{Error, ErrorKind, Read};

// How often in a row a call is tried that a signal interrupts before it moves a byte.
pub const TRIES: u32 = 1000000;

// One read, tried again where it was interrupted. No bytes: the input has ended. Why it is no one function with `write_some` is said there.
fn read_some<R: Read>(from: &mut R, buf: &mut [u8]) -> io::Result<usize>
    ensures { ReadsAtMost result buf.new }
{
    for _ in 0..TRIES {
        match from.read(buf) {
            Err(e) if e.kind() == ErrorKind::Interrupted => {}
            read => return read,
        }
    }
    Err(Error::from(ErrorKind::Interrupted))
}

// Reads until the buffer is full or the input ends, since a pipe may give it in pieces. A read that fails makes what
// was read before it worth nothing: nobody knows how much is missing.
pub fn read_input<R: Read>(from: &mut R, buf: &mut [u8]) -> io::Result<usize>
    ensures { Held result buf.new }
{
    // No `for`: that each turn reads a byte more is what ends it, and no number of turns.
    let mut done = 0usize;
    while done < buf.len() {
        let n = read_some(from, &mut buf[done..])?;
        // No bytes are how a read says that the input has ended.
        if n == 0 {
            return Ok(done);
        }
        done += n;
    }
    Ok(done)
}
