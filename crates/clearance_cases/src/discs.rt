// The cells at a distance from a tree or less, enumerated one by one in a window that is wider than every disc, by their squares alone.
use crate::bounds::Bounds;
use clearance::Tree;
use octagon::Refusal;

// How far the window reaches from the tree on each side. The greatest disc, with the radius 255, leaves two cells on each side.
const REACH: i16 = 257;

// How many cells there are, and the bounds that they reach.
#[derive(Clone, Copy)]
pub struct Disc {
    pub cells: u32,
    reached: Bounds,
}

fn square(n: i16) -> u32 {
    let n = u32::from(n.unsigned_abs());
    n * n
}

// Whether the cell that is so far east and north of a tree is at its radius or less.
fn is_near(east: i16, north: i16, radius: u32) -> bool {
    let radius = u64::from(radius);
    u64::from(square(east)) + u64::from(square(north)) <= radius * radius
}

impl Disc {
    // The cells about a tree, each cell of the window tested.
    pub fn about(tree: Tree) -> Self {
        let mut cells = 0u32;
        let mut reached = Bounds::LEAST;
        for north in -REACH..=REACH {
            for east in -REACH..=REACH {
                if is_near(east, north, tree.radius) {
                    cells = cells.saturating_add(1);
                    reached = reached.greatest(Bounds::beside(tree, east, north));
                }
            }
        }
        Self { cells, reached }
    }

    // What the library is to answer: the bounds that the cells reach, or that one is off the map.
    pub fn expected(self) -> Result<Bounds, Refusal> {
        if self.reached.leave_map() {
            Err(Refusal::OffMap)
        } else {
            Ok(self.reached)
        }
    }
}
