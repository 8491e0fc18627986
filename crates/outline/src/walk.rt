// The walk round an outline, vertex by vertex, in 64 bits: wide enough for any start and any lengths.
ghost use Rattle.std.specs.Prelude.{◌≡◌, ◌≤◌, ◌<◌, pos, ◌+ℤ◌, ◌*ℤ◌};
ghost use Rattle.std.specs.Int.{w64};
ghost use Rattle.std.proofs.Common.{SFits};
ghost use Rattle.outline.specs.Walk as walk;

use crate::Outline;
use crate::tables::STEPS;

// Document 01's cell.
#[derive(Clone, Copy, Debug, PartialEq, Eq, Hash)]
pub struct Cell {
    pub x: i64,
    pub y: i64,
}

// A step along a side: how far it goes east, and how far north.
#[derive(Clone, Copy, Debug, PartialEq, Eq, Hash)]
struct Step {
    east: i32,
    north: i32,
}

// The step along side k.
fn step_along(k: usize) -> Step
    requires { k < 8 }
    ensures east { result.east ≡ walk.east k }
    ensures north { result.north ≡ walk.north k }
{
    let [east, north] = STEPS[k];
    Step { east, north }
}

// A coordinate after n steps of d.
fn moved(a: i64, d: i32, n: u32) -> i64
    requires { SFits w64 (a +ℤ d *ℤ pos n) }
    ensures { result ≡ a +ℤ d *ℤ pos n }
{
    a + (d as i64) * (n as i64)
}

// Vertex k of the walk: document 01's corner k. Vertex 8 is where the walk ends.
pub fn vertex(o: Outline, k: usize) -> Cell
    requires { k ≤ 8 }
    ensures { result ≡ walk.vertex o k }
{
    let mut x = o.i as i64;
    let mut y = o.j as i64;
    for m in 0..k {
        let d = step_along(m);
        let n = o.sides()[m];
        x = moved(x, d.east, n);
        y = moved(y, d.north, n);
    }
    Cell { x, y }
}
