// Octagons and lists as they are written.
use octagon::Octagon;
use std::fmt;

// The most places of a list that are written.
const MOST: usize = 24;

// Eight bounds, each after a space.
#[derive(Clone, Copy)]
pub struct Bounds(pub Octagon);

impl fmt::Display for Bounds {
    fn fmt<W: fmt::Write>(&self, f: &mut fmt::Formatter<W>) -> fmt::Result {
        let o = self.0;
        for bound in [o.c0, o.c1, o.c2, o.c3, o.c4, o.c5, o.c6, o.c7] {
            write!(f, " {bound}")?;
        }
        Ok(())
    }
}

// The sum of a list and its places, of a long one the last.
#[derive(Clone, Copy)]
pub struct Places<'a>(pub &'a [u64]);

impl Places<'_> {
    // The sum of all places, round 2 ^ 64.
    fn sum(&self) -> u64 {
        self.0.iter().fold(0u64, |sum, n| sum.wrapping_add(*n))
    }
}

impl fmt::Display for Places<'_> {
    fn fmt<W: fmt::Write>(&self, f: &mut fmt::Formatter<W>) -> fmt::Result {
        let list = self.0;
        write!(f, "sum {}, list", self.sum())?;
        for n in &list[list.len().saturating_sub(MOST)..] {
            write!(f, " {n}")?;
        }
        Ok(())
    }
}
