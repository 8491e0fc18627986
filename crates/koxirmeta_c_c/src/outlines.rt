// Outlines to octagons and back, and vertices in metres.
ghost use Rattle.koxirmeta_c.specs.Calls as calls;
ghost use Rattle.koxirmeta_c.specs.Outlines as outlines;

// The octagon of an outline.
#[unsafe(no_mangle)]
pub extern "C" fn kx_to_octagon(start: &[i32], sides: &[u32], out: &mut [i32]) -> u32
    ensures { calls.Hands (outlines.tracing start.now sides.now out.old) calls.bounds_of out.old out.new result }
{
    koxirmeta_c::outlines::kx_to_octagon(start, sides, out)
}

// The outline of eight bounds.
#[unsafe(no_mangle)]
pub extern "C" fn kx_to_outline(bounds: &[i32], start: &mut [i32], sides: &mut [u32]) -> u32
    ensures { calls.Hands (outlines.outlining bounds.now start.old sides.old) outlines.outline_parts (start.old, sides.old) (start.new, sides.new) result }
{
    koxirmeta_c::outlines::kx_to_outline(bounds, start, sides)
}

// Vertex k of eight bounds in metres, east and north.
#[unsafe(no_mangle)]
pub extern "C" fn kx_vertex_place(bounds: &[i32], k: u32, place: &mut [f64]) -> u32
    ensures { calls.Hands (outlines.locating bounds.now k place.old) outlines.metres_of place.old place.new result }
{
    koxirmeta_c::outlines::kx_vertex_place(bounds, k, place)
}
