// The bounds that the cells at a distance from a centre or less reach: the radius along the axes, and the slant reach along the slants.
ghost use Rattle.std.specs.Prelude.{◌≡◌};
ghost use Rattle.std.specs.Int.{w32};
ghost use Rattle.octagon.specs.NormalForm as form;
ghost use Rattle.octagon.specs.Widths.{Held};
ghost use Rattle.clearance.specs.Clearing as clearing;

use crate::Tree;
use octagon::{Octagon, on_map};

// The bounds along the axes, in 64 bits: wide enough for any centre.
#[derive(Clone, Copy, Debug, PartialEq, Eq, Hash)]
pub struct Axes {
    pub c0: i64,
    pub c2: i64,
    pub c4: i64,
    pub c6: i64,
}

impl Axes {
    // Those about a tree.
    pub fn about(tree: Tree) -> Axes
        ensures { result ≡ clearing.axes tree.x tree.y tree.radius }
    {
        let Tree { x, y, radius } = tree;
        let u = x as i64;
        let v = y as i64;
        let r = radius as i64;
        Axes {
            c0: r - v,
            c2: r + u,
            c4: r + v,
            c6: r - u,
        }
    }

    // Whether they are on the map.
    pub fn are_on_map(self) -> bool
        ensures { result ≡ form.are_within_limit self.c0 self.c2 self.c4 self.c6 }
    {
        on_map(self.c0, self.c2, self.c4, self.c6)
    }

    // All eight bounds about a tree, where they fit.
    pub fn with_slants(self, tree: Tree, reach: u16) -> Octagon
        requires { Held w32 (clearing.with_slants self tree.x tree.y reach) }
        ensures { result ≡ clearing.with_slants self tree.x tree.y reach }
    {
        let Tree { x, y, .. } = tree;
        let u = x as i64;
        let v = y as i64;
        let s = reach as i64;
        Octagon {
            c0: self.c0 as i32,
            c2: self.c2 as i32,
            c4: self.c4 as i32,
            c6: self.c6 as i32,
            c1: (s + u - v) as i32,
            c3: (s + u + v) as i32,
            c5: (s - u + v) as i32,
            c7: (s - u - v) as i32,
        }
    }
}
