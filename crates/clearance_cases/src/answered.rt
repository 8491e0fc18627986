// An answer as a line has it: eight bounds, or the number of a refusal.
use crate::bounds::Bounds;
use octagon::Refusal;
use std::fmt;

#[derive(Clone, Copy)]
pub struct Answered(pub Result<Bounds, Refusal>);

impl fmt::Display for Answered {
    fn fmt<W: fmt::Write>(&self, f: &mut fmt::Formatter<W>) -> fmt::Result {
        match self.0 {
            Ok(bounds) => write!(f, "{bounds}"),
            Err(refusal) => write!(f, " refused {}", refusal.number()),
        }
    }
}
