// The input: words of eight bytes, the lowest first, and tapes of such words. After its end every byte is 0.
use std::fmt;
use std::io::Read;
use std::num::f64_from_bits_with_nan;

// A word as eight letters.
#[derive(Clone, Copy)]
pub struct Name([u8; 8]);

impl fmt::Display for Name {
    fn fmt<W: fmt::Write>(&self, f: &mut fmt::Formatter<W>) -> fmt::Result {
        for letter in self.0 {
            write!(f, "{}", char::from(letter))?;
        }
        Ok(())
    }
}

fn word(from: &mut impl Read) -> [u8; 8] {
    let mut bytes = [0; 8];
    let _ = from.read_exact(&mut bytes);
    bytes
}

// The next word as eight letters.
pub fn next_name(from: &mut impl Read) -> Name {
    Name(word(from))
}

// The next word as a number.
pub fn next_number(from: &mut impl Read) -> u64 {
    u64::from_le_bytes(word(from))
}

// Reads the next tape to the start of `room`, and no more of it than there is room for. Of the many patterns that are no number's, the
// language reads none: each is made anew.
pub fn next_tape<'a>(from: &mut impl Read, room: &'a mut [f64]) -> &'a [f64] {
    let len = room.len().min(next_number(from) as usize);
    let tape = &mut room[..len];
    for metres in tape.iter_mut() {
        *metres = f64_from_bits_with_nan(next_number(from));
    }
    tape
}
