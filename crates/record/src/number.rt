// Numbers read where they lie, and written there, least byte first.
ghost use Rattle.std.specs.Prelude.{◌≡◌, ◌+◌, ◌≤◌, length};
ghost use Rattle.std.proofs.lemmas.List.Edits.{sets};
ghost use Rattle.record.specs.Numbers.{bytes_of, number32, number64};

// The 32-bit number at a place.
#[tactic(auto, using(crate::proofs::Numbers::le_number32))]
pub fn u32_at(s: &[u8], at: usize) -> u32
    requires { at + 4 ≤ length s.now }
    ensures { result ≡ number32 at s.now }
{
    u32::from_le_bytes(*s[at..at + 4].as_array().unwrap())
}

// The 64-bit number at a place.
#[tactic(auto, using(crate::proofs::Numbers::le_number64))]
pub fn u64_at(s: &[u8], at: usize) -> u64
    requires { at + 8 ≤ length s.now }
    ensures { result ≡ number64 at s.now }
{
    u64::from_le_bytes(*s[at..at + 8].as_array().unwrap())
}

// Writes a number to a place, in so many bytes.
pub fn write_number(s: &mut [u8], at: usize, width: usize, number: u64)
    requires { at + width ≤ length s.old }
    ensures { s.new ≡ sets s.old at (bytes_of width number) }
{
    let mut rest = number;
    for i in 0..width {
        // Rust has no `From` that narrows: below 256, `as` loses nothing. The width is a parameter, so `to_le_bytes` would give too many bytes.
        s[at + i] = (rest % 256) as u8;
        rest /= 256;
    }
}
