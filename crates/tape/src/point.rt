// The cell of a surveyed point.
ghost use Rattle.std.specs.Prelude.{◌≡◌};
ghost use Rattle.octagon.specs.Answers.{outcome};
ghost use Rattle.tape.specs.Enclosing.{point_cell};

use crate::hull::one_cell;
use crate::snapping::{snap, within_edges};
use octagon::{Octagon, Refusal};
use outline::place::Place;

// The octagon of a point's one cell. Refuses a point with a coordinate that is not finite, then one whose cell is off the map.
#[tactic(auto, using(crate::proofs::PointTests::finite_is, crate::proofs::PointTests::tests_outside, crate::proofs::PointTests::tests_unmeasured))]
pub fn cell_of(p: Place) -> Result<Octagon, Refusal>
    ensures { outcome result ≡ point_cell p }
{
    if within_edges(p.east) & within_edges(p.north) {
        return Ok(one_cell(snap(p.east), snap(p.north)));
    }
    if p.east.is_finite() & p.north.is_finite() {
        return Err(Refusal::OffMap);
    }
    Err(Refusal::NotFinite)
}
