// Folds from one edge of the map to the other, as many as the map has room for and one more, in one call and in two; folds that move a cell by
// 2 ^ 32, which 32 bits would take for no move; and as many as there can be, of the map by itself. The cells are not enumerated on the way,
// and a line has the answer alone.
use crate::bounds::Bounds;
use crate::told::{Answered, Counted, Marked};
use morphology::folds::{FOLD_LIMIT, dilate_n, erode_n};
use std::io;

const MAX: i32 = i32::MAX;

// As many folds as the map has room for.
const ACROSS: u32 = 4_000_000;

// The cells (-2000000,3), (-7,2000000) and (5,-6), row 3 of the map, and the map.
const WEST: Bounds = Bounds([-3, MAX, -2000000, MAX, 3, MAX, 2000000, MAX]);

const NORTH: Bounds = Bounds([-2000000, MAX, -7, MAX, 2000000, MAX, 7, MAX]);

const CELL: Bounds = Bounds([6, MAX, 5, MAX, -6, MAX, -5, MAX]);

const ROW: Bounds = Bounds([-3, MAX, 2000000, MAX, 3, MAX, 2000000, MAX]);

const MAP: Bounds = Bounds([2000000, MAX, 2000000, MAX, 2000000, MAX, 2000000, MAX]);

// The cells (1,0) and (0,1), the pair of (0,0) and (1,0), and the cell (1048576,0).
const EAST: Bounds = Bounds([0, MAX, 1, MAX, 0, MAX, -1, MAX]);

const UP: Bounds = Bounds([-1, MAX, 0, MAX, 1, MAX, 0, MAX]);

const PAIR: Bounds = Bounds([0, MAX, 1, MAX, 0, MAX, 0, MAX]);

const FAR: Bounds = Bounds([0, MAX, 1048576, MAX, 0, MAX, -1048576, MAX]);

// So many spreads of a plot by an element.
fn spread(rt: &impl Print, asked: &str, plot: Bounds, by: Bounds, n: u32) -> io::Result<()> {
    let given = dilate_n(plot.octagon(), by.octagon(), n).map(Marked::from);
    println!(rt; "{asked}, {n} times:{}", Answered(given))
}

// The same of trims.
fn trim(rt: &impl Print, asked: &str, plot: Bounds, by: Bounds, n: u32) -> io::Result<()> {
    let given = erode_n(plot.octagon(), by.octagon(), n).map(Counted::from);
    println!(rt; "{asked}, {n} times:{}", Answered(given))
}

// One cell moved by one cell, to the east and to the south; a cell spread to a row of the map by a pair of cells, and the row trimmed to a
// cell.
fn across(rt: &impl Print) -> io::Result<()> {
    for n in [ACROSS, ACROSS + 1] {
        spread(rt, "cell (-2000000,3) spread by (1,0)", WEST, EAST, n)?;
        trim(rt, "cell (-7,2000000) trimmed by (0,1)", NORTH, UP, n)?;
        spread(rt, "cell (-2000000,3) spread by (0,0) (1,0)", WEST, PAIR, n)?;
        trim(rt, "row 3 of the map trimmed by (0,0) (1,0)", ROW, PAIR, n)?;
    }
    Ok(())
}

// A cell spread to the row, and the row trimmed, all but two times, and then twice or thrice what that gave.
fn across_in_two(rt: &impl Print) -> io::Result<()> {
    let first = ACROSS - 2;
    let (west, row, pair) = (WEST.octagon(), ROW.octagon(), PAIR.octagon());
    for n in [2, 3] {
        let made = dilate_n(west, pair, first).and_then(|some| dilate_n(some.octagon(), pair, n));
        let left = erode_n(row, pair, first).and_then(|some| erode_n(some, pair, n));
        println!(rt;
            "cell (-2000000,3) spread by (0,0) (1,0), {first} and {n} times:{}",
            Answered(made.map(Marked::from))
        )?;
        println!(rt;
            "row 3 of the map trimmed by (0,0) (1,0), {first} and {n} times:{}",
            Answered(left.map(Counted::from))
        )?;
    }
    Ok(())
}

// 4,096 times 1,048,576 is 2 ^ 32.
fn wraps(rt: &impl Print) -> io::Result<()> {
    spread(rt, "cell (5,-6) spread by (1048576,0)", CELL, FAR, 4096)?;
    trim(rt, "cell (5,-6) trimmed by (1048576,0)", CELL, FAR, 4096)
}

fn most(rt: &impl Print) -> io::Result<()> {
    spread(rt, "the map spread by itself", MAP, MAP, FOLD_LIMIT)?;
    trim(rt, "the map trimmed by itself", MAP, MAP, FOLD_LIMIT)
}

pub fn tell(rt: &impl Print) -> io::Result<()> {
    across(rt)?;
    across_in_two(rt)?;
    wraps(rt)?;
    most(rt)
}
