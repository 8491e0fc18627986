// The squared-paper cases of documents 01 and 02 that are run beside enumerated cells.
use crate::beside::{tell_marked, tell_spread};
use crate::bounds::Cell;
use crate::operands::{BESIDE, BLOCK, EDGE, K2, K4, K13, ORIGIN};
use crate::sets::Set;
use crate::told::{Answered, Marked, verdict};
use morphology::folds::dilate_n;
use morphology::{closing, dilate, opening};
use octagon::{Octagon, Refusal};
use std::io;

fn edge_of_the_map(rt: &impl Print) -> io::Result<()> {
    let edge = Set::within(EDGE, 1999998, 0);
    tell_spread(
        rt,
        "cell (2000000,0) spread by (0,0)",
        dilate(EDGE.octagon(), ORIGIN.octagon()),
        edge.sums(Set::within(ORIGIN, -2, 0)),
    )?;
    tell_spread(
        rt,
        "cell (2000000,0) spread by (1,0)",
        dilate(EDGE.octagon(), BESIDE.octagon()),
        edge.sums(Set::within(BESIDE, -2, 0)),
    )
}

// K2 and K4 are opposed rows: their sums leave K13's middle out. K4's positions in K13 are K2. A closing has the mark of its
// spread, and just the cells of the positions in the sums.
fn opposed_rows(rt: &impl Print) -> io::Result<()> {
    let falling = Set::within(K4, -1, 0);
    let crossed = Set::within(K2, -2, 0).sums(falling);
    let fitting = Set::within(K13, -2, 0).positions(falling);
    tell_spread(
        rt,
        "K2 spread by K4",
        dilate(K2.octagon(), K4.octagon()),
        crossed,
    )?;
    tell_spread(
        rt,
        "K13 opened by K4",
        opening(K13.octagon(), K4.octagon()),
        fitting.sums(falling),
    )?;
    tell_marked(
        rt,
        "K2 closed by K4",
        closing(K2.octagon(), K4.octagon()),
        crossed.positions(falling),
        crossed.has_holes(),
    )
}

// One spread leaves the origin's cells as they are, so they are those of any number of spreads.
fn fold_limit(rt: &impl Print) -> io::Result<()> {
    let folded = |n: u32| dilate_n(Octagon::ORIGIN, Octagon::ORIGIN, n);
    let origin = Set::within(ORIGIN, 0, 0);
    let spread = origin.sums(origin);
    let same = verdict(spread == origin);
    println!(rt; "origin spread once by itself has the same cells: {same}")?;
    tell_spread(
        rt,
        "origin spread 4000001 times by itself",
        folded(4000001),
        spread,
    )?;
    let given = folded(4000002).map(Marked::from);
    let refused = verdict(given == Err(Refusal::TooManyFolds));
    println!(rt;
        "origin spread 4000002 times by itself:{}: {refused}",
        Answered(given)
    )
}

// Whether a number of metres is exactly a quarter of a number of cells.
fn is_quarter(metres: f64, cells: i32) -> bool {
    metres * 4.0 == f64::from(cells)
}

fn tell_corner(rt: &impl Print, spread: Octagon, corner: Cell) -> io::Result<()> {
    let Cell { x, y } = corner;
    let place = outline::vertex_place(spread, 2);
    let agrees = place.is_ok_and(|p| is_quarter(p.east, x) && is_quarter(p.north, y));
    println!(rt;
        "its corner 2, in quarter metres east and north: {x} {y}: {}",
        verdict(agrees)
    )
}

fn corner_in_metres(rt: &impl Print) -> io::Result<()> {
    let set = Set::within(BLOCK, 0, 0).sums(Set::within(K13, -1, 0));
    let spread = dilate(BLOCK.octagon(), K13.octagon());
    tell_spread(rt, "the block spread by K13", spread, set)?;
    if let (Ok(given), Some(corner)) = (spread, set.corner_2()) {
        tell_corner(rt, given.octagon(), corner)?;
    }
    Ok(())
}

pub fn tell(rt: &impl Print) -> io::Result<()> {
    edge_of_the_map(rt)?;
    opposed_rows(rt)?;
    fold_limit(rt)?;
    corner_in_metres(rt)
}
