// Numbers and records as they are written, and digests.
use outline::Outline;
use sheet::Record;
use std::{fmt, io};

// The sides of an outline, each after a space.
#[derive(Clone, Copy)]
struct Sides(Outline);

impl fmt::Display for Sides {
    fn fmt<W: fmt::Write>(&self, f: &mut fmt::Formatter<W>) -> fmt::Result {
        for side in self.0.sides() {
            write!(f, " {side}")?;
        }
        Ok(())
    }
}

// A record: its number, start, sides and fee row.
#[derive(Clone, Copy)]
pub struct Fields(pub Record);

impl fmt::Display for Fields {
    fn fmt<W: fmt::Write>(&self, f: &mut fmt::Formatter<W>) -> fmt::Result {
        let r = self.0;
        let o = r.outline;
        write!(f, "{} {} {}{} {}", r.number, o.i, o.j, Sides(o), r.fee_row)
    }
}

// A number made of all bytes in order, round 2 ^ 32.
fn digest(bytes: &[u8]) -> u32 {
    bytes.iter().fold(
        0u32,
        |sum, byte| sum.wrapping_mul(31).wrapping_add(u32::from(*byte)),
    )
}

// Writes the digest of bytes.
pub fn say_digest(rt: &impl Print, bytes: &[u8]) -> io::Result<()> {
    println!(rt; "digest {}", digest(bytes))
}
