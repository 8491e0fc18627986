// Eight bounds in the order of document 01's inequalities: those of an octagon, and those that cells reach.
ghost use Rattle.std.specs.Prelude.{◌^◌, ◌<◌, nat_abs};

use clearance::Tree;
use octagon::Octagon;
use std::{array, fmt};

// The map's limit.
const LIMIT: i64 = 2_000_000;

// The coordinate that is so far from a tree's.
fn coordinate(middle: i32, away: i16) -> i64
    ensures { nat_abs result < 2 ^ 32 }
{
    i64::from(middle) + i64::from(away)
}

#[derive(Clone, Copy, PartialEq, Eq)]
pub struct Bounds([i64; 8]);

impl Bounds {
    // Less than each bound of a cell.
    pub const LEAST: Bounds = Bounds([i64::MIN; 8]);

    // The left sides of the inequalities at the cell that is so far east and north of a tree.
    pub fn beside(tree: Tree, east: i16, north: i16) -> Self {
        let x = coordinate(tree.x, east);
        let y = coordinate(tree.y, north);
        Self([-y, x - y, x, x + y, y, y - x, -x, -x - y])
    }

    // The greater of each two.
    pub fn greatest(self, other: Self) -> Self {
        Self(array::from_fn(|k| self.0[k].max(other.0[k])))
    }

    // Whether a cell among those that reach the bounds is off the map: the greatest -y, x, y or -x is past its limit.
    pub fn leave_map(self) -> bool {
        let [c0, _, c2, _, c4, _, c6, _] = self.0;
        c0.max(c2).max(c4).max(c6) > LIMIT
    }
}

impl From<Octagon> for Bounds {
    fn from(o: Octagon) -> Self {
        Self([o.c0, o.c1, o.c2, o.c3, o.c4, o.c5, o.c6, o.c7].map(i64::from))
    }
}

// Each bound after a space.
impl fmt::Display for Bounds {
    fn fmt<W: fmt::Write>(&self, f: &mut fmt::Formatter<W>) -> fmt::Result {
        for bound in self.0 {
            write!(f, " {bound}")?;
        }
        Ok(())
    }
}
