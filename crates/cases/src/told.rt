// What a line is made of: numbers, counts, octagons with their counts and marks, and refusals.
use crate::bounds::Bounds;
use morphology::Spread;
use octagon::{Octagon, Refusal};
use std::fmt;
use std::fmt::Display;

// Numbers, each after a space.
#[derive(Clone, Copy)]
pub struct Spaced<'a, T>(pub &'a [T]);

impl<T: Display> Display for Spaced<'_, T> {
    fn fmt<W: fmt::Write>(&self, f: &mut fmt::Formatter<W>) -> fmt::Result {
        for number in self.0 {
            write!(f, " {number}")?;
        }
        Ok(())
    }
}

// A number of cells, or a refusal.
#[derive(Clone, Copy, PartialEq, Eq)]
pub struct Cells(pub Result<u64, Refusal>);

impl Display for Cells {
    fn fmt<W: fmt::Write>(&self, f: &mut fmt::Formatter<W>) -> fmt::Result {
        match self.0 {
            Ok(n) => write!(f, ", cells {n}"),
            Err(_) => write!(f, ", no count"),
        }
    }
}

// The bounds of an octagon and the number of its cells. One with the bounds that a set reaches and as many cells has no other cells.
#[derive(Clone, Copy, PartialEq, Eq)]
pub struct Counted {
    pub bounds: Bounds,
    pub cells: Cells,
}

impl From<Octagon> for Counted {
    fn from(o: Octagon) -> Self {
        Self {
            bounds: o.into(),
            cells: Cells(cell_count::count_cells(o)),
        }
    }
}

impl Display for Counted {
    fn fmt<W: fmt::Write>(&self, f: &mut fmt::Formatter<W>) -> fmt::Result {
        write!(f, "{}{}", self.bounds, self.cells)
    }
}

// What a call that spreads gives, and whether it is filled.
#[derive(Clone, Copy, PartialEq, Eq)]
pub struct Marked {
    pub octagon: Counted,
    pub is_filled: bool,
}

impl From<Spread> for Marked {
    fn from(spread: Spread) -> Self {
        Self {
            octagon: spread.octagon().into(),
            is_filled: spread.is_filled(),
        }
    }
}

impl Display for Marked {
    fn fmt<W: fmt::Write>(&self, f: &mut fmt::Formatter<W>) -> fmt::Result {
        let mark = if self.is_filled { "filled" } else { "exact" };
        write!(f, "{}, {mark}", self.octagon)
    }
}

// What is answered, or a refusal by its number.
#[derive(Clone, Copy)]
pub struct Answered<T>(pub Result<T, Refusal>);

impl<T: Display> Display for Answered<T> {
    fn fmt<W: fmt::Write>(&self, f: &mut fmt::Formatter<W>) -> fmt::Result {
        match &self.0 {
            Ok(value) => write!(f, "{value}"),
            Err(refusal) => write!(f, " refused {}", refusal.number()),
        }
    }
}

pub fn verdict(agrees: bool) -> &'static str {
    if agrees { "agree" } else { "disagree" }
}
