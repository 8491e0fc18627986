// Spectra that were worked out by hand, and calls that are refused. tests/spectra.py has the drawings.
use crate::calls::Call;
use octagon::Octagon;
use std::io;

const MAX: i32 = i32::MAX;

// A plot of 31 cells, all eight bounds different.
const PLOT: Octagon = Octagon {
    c0: 0,
    c1: 3,
    c2: 5,
    c3: 8,
    c4: 6,
    c5: 4,
    c6: 1,
    c7: -1,
};

// Calls with each number of places up to those of a list.
fn lengths(rt: &impl Print, call: Call, list: &mut [u64]) -> io::Result<()> {
    for places in 0..=list.len() {
        call.tell(rt, &mut list[..places])?;
    }
    Ok(())
}

// Up to one place more than there are entries: a block of four cells, and seven cells, with (0, 0) in a corner; K13 by K4; and a rising pair.
// The last opening of these two is filled.
pub fn by_hand(rt: &impl Print) -> io::Result<()> {
    let block = Call {
        plot: PLOT,
        frame: Octagon::new(0, 0, 0, 1, 1, 2, 1, 1),
    };
    let seven = Call {
        plot: Octagon::new(1, 4, 7, 10, 5, 3, -1, -2),
        frame: Octagon::new(1, 0, 0, 0, 1, 2, 3, 4),
    };
    let diamond = Call {
        plot: Octagon::new(0, 0, 1, 2, 2, 2, 1, 0),
        frame: Octagon::new(0, 0, 0, 0, 1, 2, 1, 0),
    };
    let rising = Call {
        plot: Octagon::new(-2, -4, 0, 5, 6, 10, 4, 1),
        frame: Octagon::new(1, 0, 0, 0, 0, 0, 1, 2),
    };
    lengths(rt, block, &mut [0; 5])?;
    lengths(rt, seven, &mut [0; 4])?;
    lengths(rt, diamond, &mut [0; 3])?;
    lengths(rt, rising, &mut [0; 5])
}

// Calls of one plot by several frames, with up to three places.
fn by_each(rt: &impl Print, plot: Octagon, frames: &[Octagon]) -> io::Result<()> {
    for frame in frames {
        let frame = *frame;
        lengths(rt, Call { plot, frame }, &mut [0; 3])?;
    }
    Ok(())
}

// Plots that are refused, each by frames that are refused too, so that the first in the order is given: no cell, though the bounds meet two by
// two; two cells off the map. Then frames: two of no cell; a cell off the map, and a row from (0, 0) to one; four cells without (0, 0), the cell
// east of it, the three beside it in a block of four, and the cell south-west of it; (0, 0) alone, also by bounds that are not all reached.
pub fn refusals(rt: &impl Print) -> io::Result<()> {
    let none = Octagon::new(5, 0, 5, 1, 5, 0, 5, -1);
    let past = Octagon::new(
        -3, 1999998, 2000001, 2000005, 4, -1999995, -1999999, -2000002,
    );
    let no_row = Octagon::new(-3, 9, 9, 9, 2, 9, 9, 9);
    let off = Octagon::new(
        2, 2000003, 2000001, 1999999, -2, -2000003, -2000001, -1999999,
    );
    let beside = Octagon::new(0, 2, 2, 3, 1, 0, -1, -1);
    let frames = [
        no_row,
        none,
        off,
        Octagon::new(0, MAX, 2000001, MAX, 0, MAX, 0, MAX),
        beside,
        Octagon::new(0, 1, 1, 1, 0, -1, -1, -1),
        Octagon::new(0, 1, 1, 2, 1, 1, 0, -1),
        Octagon::new(1, 0, -1, -2, -1, 0, 1, 2),
        Octagon::ORIGIN,
        Octagon::new(0, 7, 0, 9, 0, 8, 0, 6),
        Octagon::new(MAX, 0, MAX, 0, MAX, 0, MAX, 0),
        Octagon::new(5, 0, 6, 1, 7, 0, 8, 1),
    ];
    by_each(rt, none, &[beside, Octagon::ORIGIN])?;
    by_each(rt, past, &[no_row, beside, Octagon::ORIGIN])?;
    by_each(rt, PLOT, &frames)
}
