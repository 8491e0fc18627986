// Outlines to octagons and back, and vertices in metres.
// Each call is a function of its own, since C calls it by its name.
ghost use Rattle.std.specs.Prelude.{◌≡◌};
ghost use Rattle.koxirmeta_c.specs.Calls as calls;
ghost use Rattle.koxirmeta_c.specs.Outlines as outlines;

use crate::WRONG_LENGTH;
use crate::codes::{outline_in, parts_of};
use crate::giving::{give_array, give_start_and};
use crate::octagons::{give, octagon_in};
use outline::place::Place;
use outline::{to_octagon, to_outline, vertex_place};

// The octagon of an outline.
pub fn kx_to_octagon(start: &[i32], sides: &[u32], out: &mut [i32]) -> u32
    ensures { calls.Hands (outlines.tracing start.now sides.now out.old) calls.bounds_of out.old out.new result }
{
    if (start.len() == 2) & (sides.len() == 8) {
        return give(to_octagon(outline_in(start, sides)), true, out);
    }
    WRONG_LENGTH
}

// The outline of eight bounds.
pub fn kx_to_outline(bounds: &[i32], start: &mut [i32], sides: &mut [u32]) -> u32
    ensures { calls.Hands (outlines.outlining bounds.now start.old sides.old) outlines.outline_parts (start.old, sides.old) (start.new, sides.new) result }
{
    give_start_and(
        to_outline(octagon_in(bounds)).map(parts_of),
        bounds.len() == 8,
        start,
        sides,
    )
}

// A place, east and north.
#[tactic(auto, unfolding(crate::specs::Outlines::metres_of))]
fn metres_of(p: Place) -> [f64; 2]
    ensures { result ≡ outlines.metres_of p }
{
    [p.east, p.north]
}

// Vertex k of eight bounds in metres, east and north.
pub fn kx_vertex_place(bounds: &[i32], k: u32, place: &mut [f64]) -> u32
    ensures { calls.Hands (outlines.locating bounds.now k place.old) outlines.metres_of place.old place.new result }
{
    give_array(
        vertex_place(octagon_in(bounds), k).map(metres_of),
        bounds.len() == 8,
        place,
    )
}
