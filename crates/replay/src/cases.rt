// The cases of `form.bin`: a length of two bytes, the refusal that its form draws, the bytes.
use crate::read;
use crate::read::Stop;
use form::{number_of, record_of};
use std::io::Read;

// Whether the bytes of a case, so many, draw this refusal. No case has more than the buffer holds.
// That is fixed, as all memory of this program is.
fn is_right<R: Read>(file: &mut R, size: u16, refusal: u8) -> Option<bool> {
    let mut buffer = [0u8; 512];
    let bytes = read::front(file, &mut buffer, usize::from(size))?;
    Some(number_of(record_of(bytes)) == refusal)
}

// The next case of the file: whether it came out right. Length and refusal are read at once: each read is a call of the system.
pub fn next_case<R: Read>(file: &mut R) -> Result<bool, Stop> {
    let [low, high, refusal]: [u8; 3] = read::head(file)?;
    let size = u16::from_le_bytes([low, high]);
    is_right(file, size, refusal).ok_or(Stop::Broken)
}
