// Bytes of a file, and the numbers that they are.
ghost use Rattle.std.specs.Prelude.{◌≡◌, ◌≤◌, length, take};

use std::io::Read;

// Reads until the buffer is full, the file ends or a read fails, and returns how many bytes it put at the start of the
// buffer.
pub fn read_full<R: Read>(file: &mut R, buf: &mut [u8]) -> usize
    ensures within { result ≤ length buf.new }
    ensures front { result ≡ length (take result buf.new) }
{
    // No `for`: that each turn reads a byte more is what ends it, and no number of turns.
    let mut done = 0usize;
    while done < buf.len() {
        let n = file.read(&mut buf[done..]).unwrap_or(0);
        // No bytes are how a read says that the file has ended; one that fails ends it too.
        if n == 0 {
            return done;
        }
        done += n;
    }
    done
}

// The start of the buffer, filled from the file: none where the buffer is shorter, or the file ends before.
pub fn front<'a, R: Read>(file: &mut R, buf: &'a mut [u8], size: usize) -> Option<&'a [u8]> {
    let part = buf.get_mut(..size)?;
    if read_full(file, part) < size {
        return None;
    }
    Some(part)
}

// Why an entry of a file was not read: none begins there, or it is cut short, and then nothing says where the next one begins.
#[derive(Clone, Copy)]
pub enum Stop {
    End,
    Broken,
}

// The bytes that an entry begins with.
pub fn head<const N: usize, R: Read>(file: &mut R) -> Result<[u8; N], Stop> {
    // All of it is the answer where it is filled: its length is that of the number to be read.
    let mut head = [0u8; N];
    let got = read_full(file, &mut head);
    if got == N {
        return Ok(head);
    }
    // A number of bytes: where there is none, no entry begins.
    Err(if got == 0 { Stop::End } else { Stop::Broken })
}

// So many bytes: none where the file ends before them.
pub fn bytes<const N: usize, R: Read>(file: &mut R) -> Option<[u8; N]> {
    head(file).ok()
}

// The number of one, two or eight bytes, the low one first.
pub fn one<R: Read>(file: &mut R) -> Option<u8> {
    bytes(file).map(u8::from_le_bytes)
}

pub fn two<R: Read>(file: &mut R) -> Option<u16> {
    bytes(file).map(u16::from_le_bytes)
}

pub fn eight<R: Read>(file: &mut R) -> Option<u64> {
    bytes(file).map(u64::from_le_bytes)
}
