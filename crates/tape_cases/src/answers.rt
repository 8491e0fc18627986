// The library's answers as a line has them.
use octagon::{Octagon, Refusal};
use std::fmt;

// The bounds of an octagon, in the order of document 01's inequalities.
pub fn bounds(o: Octagon) -> [i32; 8] {
    [o.c0, o.c1, o.c2, o.c3, o.c4, o.c5, o.c6, o.c7]
}

// An octagon by its bounds, or a refusal by its number.
#[derive(Clone, Copy)]
pub struct Told(pub Result<Octagon, Refusal>);

impl fmt::Display for Told {
    fn fmt<W: fmt::Write>(&self, f: &mut fmt::Formatter<W>) -> fmt::Result {
        match self.0 {
            Ok(octagon) => {
                write!(f, "octagon")?;
                for bound in bounds(octagon) {
                    write!(f, " {bound}")?;
                }
                Ok(())
            }
            Err(refusal) => write!(f, "refused {}", refusal.number()),
        }
    }
}
