// Eight bounds, and document 01's eight inequalities, whose left sides they bound.
use crate::told::Spaced;
use octagon::Octagon;
use std::{array, fmt};

// The map's limit.
const LIMIT: i32 = 2_000_000;

// A cell on the map or near it, or the way from one cell to another: so near that no sum of coordinates wraps.
#[derive(Clone, Copy, PartialEq, Eq)]
pub struct Cell {
    pub x: i32,
    pub y: i32,
}

#[derive(Clone, Copy, PartialEq, Eq)]
pub struct Bounds(pub [i32; 8]);

impl Bounds {
    // The left sides of the inequalities at a cell: the bounds that it reaches.
    pub fn reached_by(cell: Cell) -> Self {
        let Cell { x, y } = cell;
        let (south, west) = (y.wrapping_neg(), x.wrapping_neg());
        Self([
            south,
            x.wrapping_add(south),
            x,
            x.wrapping_add(y),
            y,
            y.wrapping_add(west),
            west,
            west.wrapping_add(south),
        ])
    }

    // The greater of each two.
    pub fn greatest(self, other: Self) -> Self {
        Self(array::from_fn(|k| self.0[k].max(other.0[k])))
    }

    // Whether a cell is within the bounds.
    pub fn hold(self, cell: Cell) -> bool {
        let Bounds(sides) = Bounds::reached_by(cell);
        sides.iter().zip(&self.0).all(|(side, bound)| side <= bound)
    }

    // Whether a cell among those that reach the bounds is off the map: the greatest -y, x, y or -x is past its limit.
    pub fn leave_map(self) -> bool {
        let [c0, _, c2, _, c4, _, c6, _] = self.0;
        c0.max(c2).max(c4).max(c6) > LIMIT
    }

    // The bounds as the library takes them.
    pub fn octagon(self) -> Octagon {
        let [c0, c1, c2, c3, c4, c5, c6, c7] = self.0;
        Octagon::new(c0, c1, c2, c3, c4, c5, c6, c7)
    }
}

impl From<Octagon> for Bounds {
    fn from(o: Octagon) -> Self {
        Self([o.c0, o.c1, o.c2, o.c3, o.c4, o.c5, o.c6, o.c7])
    }
}

impl fmt::Display for Bounds {
    fn fmt<W: fmt::Write>(&self, f: &mut fmt::Formatter<W>) -> fmt::Result {
        write!(f, "{}", Spaced(&self.0))
    }
}
