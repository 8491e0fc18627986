// The surveyor's tape: wall points in metres, east and north in turn, and the smallest octagon of whole cells that holds them.
//
// specs/Snapping.antt has the cell of a coordinate, specs/Hull.antt the hull of octagons, specs/Enclosing.antt what `enclose` answers, and
// specs/Cases.antt the same in words; proofs/Coordinates.antt, Cases.antt, Orders.antt and Corners.antt have the theorems.
#![tactic(auto)]

ghost use Rattle.std.specs.Prelude.{◌≡◌};
ghost use Rattle.octagon.specs.Answers.{outcome};
ghost use Rattle.tape.specs.Enclosing.{enclosed, gathered, paired, place_at, point_cell};

use octagon::{Octagon, Refusal};
use outline::place::Place;

mod hull;
mod point;
mod snapping;

// The smallest octagon that holds the cell of each point of a tape. Refuses a tape with no point, then one that ends in half a point; then,
// point by point, one that is not finite, and one whose cell is off the map.
#[tactic(auto, using(crate::proofs::Points::enclosed_none, crate::proofs::Points::enclosed_half, crate::proofs::Points::enclosed_by_pairs))]
pub fn enclose(tape: &[f64]) -> Result<Octagon, Refusal>
    ensures { outcome result ≡ enclosed tape.now }
{
    let (pairs, half) = tape.as_chunks::<2>();
    if !half.is_empty() {
        return Err(Refusal::HalfPoint);
    }
    let [first, rest @ ..] = pairs else {
        return Err(Refusal::NoPoint);
    };
    gather(cell_at(*first)?, rest)
}

// The cell of a point by its two numbers.
fn cell_at(pair: [f64; 2]) -> Result<Octagon, Refusal>
    ensures { outcome result ≡ point_cell (place_at pair 0) }
{
    let [east, north] = pair;
    point::cell_of(Place { east, north })
}

// The bounds c, widened by the cell of each point.
fn gather(c: Octagon, pairs: &[[f64; 2]]) -> Result<Octagon, Refusal>
    ensures { outcome result ≡ gathered c (paired pairs.now) }
{
    let mut all = c;
    for pair in pairs {
        all = hull::hull(all, cell_at(*pair)?);
    }
    Ok(all)
}
