// The cell of a coordinate, without loss: a sum that rounds finds the nearest whole number of quarters, and an exact comparison settles
// the one case in which that is not the cell.
ghost use Rattle.std.specs.Prelude.{◌≡◌, true, ◌+◌, pos, neg_ℤ, ◌≤ℤ◌};
ghost use Rattle.std.specs.Float.Ieee.{le};
ghost use Rattle.octagon.specs.Outcome.{accepted};
ghost use Rattle.octagon.specs.Cells.{limit};
ghost use Rattle.tape.specs.Snapping as snapping;

use octagon::Octagon;

// Where the numbers of an f64 are quarters: 1.5 × 2^50, so that a sum with a coordinate of the map is rounded to whole quarters.
const QUARTERS: f64 = 1688849860263936.0;

// Its bits. The next number up, a quarter more, has the next bits.
const QUARTERS_BITS: i64 = 0x4318_0000_0000_0000;

// Whether the lower edge of the cell n, n / 4 - 1 / 8, is at most e: the edge is exact.
fn reaches(n: i32, e: f64) -> bool
    requires { (neg_ℤ (pos (limit + 1)) ≤ℤ n) × (n ≤ℤ pos (limit + 1)) }
    ensures { result ≡ le (snapping.edge n) e }
{
    ((n + n - 1) as f64) * 0.125 <= e
}

// Whether e is in one of the map's cells.
pub fn within_edges(e: f64) -> bool
    ensures { result ≡ snapping.within_edges e }
{
    reaches(-Octagon::LIMIT, e) & !reaches(Octagon::LIMIT + 1, e)
}

// The nearest whole number of quarters, and where two are as near, the even one.
fn nearest(e: f64) -> i32
    requires { snapping.within_edges e ≡ true }
    ensures { snapping.Nearest result e }
{
    ((e + QUARTERS).to_bits() as i64 - QUARTERS_BITS) as i32
}

// The cell of a coordinate that is in one of the map's cells.
pub fn snap(e: f64) -> i32
    requires { snapping.within_edges e ≡ true }
    ensures { accepted result ≡ snapping.snapped e }
{
    let n = nearest(e);
    if reaches(n + 1, e) { n + 1 } else { n }
}
