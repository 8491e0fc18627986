// The call on a tree: the cell that it stands on, and its radius.
use crate::print::{List, tell};
use koxirmeta_c::clearances::kx_clearance;
use std::io;

const MIN: i32 = i32::MIN;

const MAX: i32 = i32::MAX;

fn clearance(rt: &impl Print, x: i32, y: i32, radius: u32, out: &mut [i32]) -> io::Result<()> {
    let answer = kx_clearance(x, y, radius, out);
    tell(rt, "clearance", answer, List(out))
}

// The call on each tree, with a result of eight numbers.
fn each(rt: &impl Print, trees: &[(i32, i32, u32)]) -> io::Result<()> {
    for (x, y, radius) in trees {
        let mut out = [101, 102, 103, 104, 105, 106, 107, 108];
        clearance(rt, *x, *y, *radius, &mut out)?;
    }
    Ok(())
}

// Centres on every side of the middle, and radii from the least to the greatest; then discs that reach each edge of the map.
const ACCEPTED: [(i32, i32, u32); 9] = [
    (-37, 52, 0),
    (9, -4, 1),
    (-6, -11, 3),
    (23, 14, 5),
    (-1234, 5678, 255),
    (1999745, -31, 255),
    (17, 1999746, 254),
    (-1999995, 42, 5),
    (-8, -1999997, 3),
];

// A radius above the limit: about centres on the map, off it, and at the ends of 32 bits.
const TOO_WIDE: [(i32, i32, u32); 3] = [(2, 7, 256), (-4000000, 6, 511), (MIN, MAX, u32::MAX)];

// A disc one cell past each edge of the map; a centre one past it, and at the ends of 32 bits.
const OFF_MAP: [(i32, i32, u32); 8] = [
    (1999746, -31, 255),
    (17, 1999747, 254),
    (-1999996, 42, 5),
    (-8, -1999998, 3),
    (2000001, 10, 0),
    (-12, -2000001, 0),
    (MAX, 4, 255),
    (-3, MIN, 255),
];

// Results of seven and of nine numbers, for a tree that is accepted and for trees that are refused.
fn misfits(rt: &impl Print) -> io::Result<()> {
    let mut seven = [101, 102, 103, 104, 105, 106, 107];
    let mut nine = [101, 102, 103, 104, 105, 106, 107, 108, 109];
    clearance(rt, 9, -4, 1, &mut seven)?;
    clearance(rt, 9, -4, 1, &mut nine)?;
    clearance(rt, 2, 7, 256, &mut seven)?;
    clearance(rt, 2000001, 10, 0, &mut nine)
}

pub fn clearances(rt: &impl Print) -> io::Result<()> {
    each(rt, &ACCEPTED)?;
    each(rt, &TOO_WIDE)?;
    each(rt, &OFF_MAP)?;
    misfits(rt)
}
