// The corners of an octagon, handed back as a tape.
use octagon::{Octagon, Refusal};
use outline::place::Place;

// A corner's metres east and north.
fn corner(o: Octagon, k: u32) -> Result<[f64; 2], Refusal> {
    let Place { east, north } = outline::vertex_place(o, k)?;
    Ok([east, north])
}

// What `enclose` answers to the eight corners of an octagon.
pub fn handed_back(o: Octagon) -> Result<Octagon, Refusal> {
    let corners = [0, 1, 2, 3, 4, 5, 6, 7].try_map(|k| corner(o, k))?;
    tape::enclose(corners.as_flattened())
}
