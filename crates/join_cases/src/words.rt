// Answers, bytes and digests on standard output.
use octagon::Refusal;
use std::{fmt, io};

// The most bytes of a buffer that are written one by one.
const SHOWN: usize = 512;

// Bytes as hexadecimal digits, two for each.
#[derive(Clone, Copy)]
struct Hex<'a>(&'a [u8]);

impl fmt::Display for Hex<'_> {
    fn fmt<W: fmt::Write>(&self, f: &mut fmt::Formatter<W>) -> fmt::Result {
        for byte in self.0 {
            write!(f, "{byte:02x}")?;
        }
        Ok(())
    }
}

// Writes an answer after the name of its pair: the length of a sheet that was written, or the number of the refusal.
pub fn say_answer(
    rt: &impl Print,
    name: &[u8; 8],
    answer: Result<usize, Refusal>,
) -> io::Result<()> {
    rt.write_all(name)?;
    match answer {
        Ok(n) => println!(rt; " length {n}"),
        Err(refusal) => println!(rt; " refused {}", refusal.number()),
    }
}

// A number made of all bytes in order, round 2 ^ 32.
fn digest(bytes: &[u8]) -> u32 {
    bytes.iter().fold(0u32, |sum, byte| {
        sum.wrapping_mul(69069).wrapping_add(u32::from(*byte))
    })
}

// Writes all bytes of a buffer, or of a long one their digest.
pub fn say_bytes(rt: &impl Print, bytes: &[u8]) -> io::Result<()> {
    if bytes.len() <= SHOWN {
        println!(rt; "{}", Hex(bytes))
    } else {
        println!(rt; "digest {}", digest(bytes))
    }
}
