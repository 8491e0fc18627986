// The place of a vertex of an outline.
ghost use Rattle.std.specs.Prelude.{◌≡◌, ℕ, ◌<◌};
ghost use Rattle.octagon.specs.Answers.{outcome};
ghost use Rattle.outline.specs.Walk as walk;
ghost use Rattle.outline.specs.Places as places;

use crate::Outline;
use crate::place::{Place, place_of};
use crate::walk::vertex;
use octagon::Refusal;

// Vertex k (document 01's corner k) in metres, where the vertices fit 32 bits. Refuses a number above 7.
pub fn place_of_vertex(o: Outline, k: u32) -> Result<Place, Refusal>
    requires { (n : ℕ) → n < 8 → places.HeldCell (walk.vertex o n) }
    ensures { outcome result ≡ places.place_of_vertex o k }
{
    if k > 7 {
        return Err(Refusal::NoVertex);
    }
    let v = vertex(o, k as usize);
    Ok(place_of(v.x as i32, v.y as i32))
}
