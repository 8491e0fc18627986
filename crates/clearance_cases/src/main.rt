// Trees and what `around` answers to each, beside the cells of their discs, which are enumerated here.
//
// What is expected comes from document 02's distance by squares, document 01's eight inequalities and the map's limit alone: no root, no
// table, and no other call of the library. A line has the tree, the answer, what the cells or the radius say, and whether the two agree.
// tests/clearances.py works the lines out on its own.
#![tactic(auto)]

mod answered;
mod beside;
mod bounds;
mod discs;

use beside::tell;
use clearance::Tree;
use std::io;

// Trees at the map's edge: how far from its middle each stands, and its radius.
const EDGES: [(i32, u32); 13] = [
    (2000000, 0),
    (2000001, 0),
    (1999999, 1),
    (2000000, 1),
    (1999997, 3),
    (1999998, 3),
    (1999995, 5),
    (1999996, 5),
    (1999746, 254),
    (1999747, 254),
    (1999745, 255),
    (1999746, 255),
    (2000000, 255),
];

// Centres on the map, one cell off it, and at both ends of 32 bits.
const CENTRES: [(i32, i32); 11] = [
    (12, -9),
    (2000001, 3),
    (-5, -2000001),
    (i32::MAX, 7),
    (i32::MIN, -6),
    (8, i32::MAX),
    (-4, i32::MIN),
    (i32::MAX, i32::MAX),
    (i32::MAX, i32::MIN),
    (i32::MIN, i32::MAX),
    (i32::MIN, i32::MIN),
];

// The least radius and the greatest that are allowed; the first that is not, one that is 255 in its last 16 bits, and the last of 32
// bits.
const RADII: [u32; 5] = [0, 255, 256, 65791, u32::MAX];

// A coordinate from -1999500 to 1999500.
fn scattered(n: u32) -> i32 {
    (n % 3999001) as i32 - 1999500
}

// Each radius, about a centre of its own.
fn radii(rt: &impl Print) -> io::Result<()> {
    for radius in 0..256 {
        let x = scattered(radius * 624917);
        let y = scattered(radius * 989921 + 375121);
        tell(rt, Tree { x, y, radius })?;
    }
    Ok(())
}

// Trees so far east, north, west and south of the map's middle, and in a corner of the map.
fn sides(rt: &impl Print, far: i32, radius: u32) -> io::Result<()> {
    let back = far.wrapping_neg();
    for (x, y) in [(far, 41), (-77, far), (back, -13), (29, back), (far, back)] {
        tell(rt, Tree { x, y, radius })?;
    }
    Ok(())
}

// Discs that reach the map's edge, and discs that are one cell past it; centres on the edge.
fn edges(rt: &impl Print) -> io::Result<()> {
    for (far, radius) in EDGES {
        sides(rt, far, radius)?;
    }
    Ok(())
}

// Each of the chosen radii about each of the chosen centres.
fn refusals(rt: &impl Print) -> io::Result<()> {
    for radius in RADII {
        for (x, y) in CENTRES {
            tell(rt, Tree { x, y, radius })?;
        }
    }
    Ok(())
}

fn all(rt: &impl Print) -> io::Result<()> {
    radii(rt)?;
    edges(rt)?;
    refusals(rt)
}

// Where a line cannot be written, nothing more is.
fn main(rt: HostRuntime) {
    let _ = all(&rt);
}
