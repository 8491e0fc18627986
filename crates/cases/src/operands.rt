// The octagons of the cases by their bounds.
use crate::bounds::{Bounds, Cell};

// The cells (2000000,0), (0,0) and (1,0).
pub const EDGE: Bounds = Bounds([
    0, 2000000, 2000000, 2000000, 0, -2000000, -2000000, -2000000,
]);

pub const ORIGIN: Bounds = Bounds([0; 8]);

pub const BESIDE: Bounds = Bounds([0, 1, 1, 1, 0, -1, -1, -1]);

// The block of 3 by 2 cells, K2, K4 and K13, the plot and the frame of the README.
pub const BLOCK: Bounds = Bounds([0, 2, 2, 3, 1, 1, 0, 0]);

pub const K2: Bounds = Bounds([0, 0, 1, 2, 1, 0, 0, 0]);

pub const K4: Bounds = Bounds([0, 0, 0, 0, 1, 2, 1, 0]);

pub const K13: Bounds = Bounds([0, 0, 1, 2, 2, 2, 1, 0]);

pub const PLOT: Bounds = Bounds([0, 0, 2, 4, 4, 4, 2, 0]);

pub const FRAME: Bounds = Bounds([0, 1, 1, 2, 1, 1, 0, 0]);

const MIN: i32 = i32::MIN;

const MAX: i32 = i32::MAX;

// Extreme bounds whose cells are none, anywhere, or too many to enumerate.
pub const EXTREMES: [Bounds; 7] = [
    Bounds([MIN; 8]),
    Bounds([MAX, MIN, MAX, MIN, MAX, MIN, MAX, MIN]),
    Bounds([MIN, MAX, MIN, MAX, MIN, MAX, MIN, MAX]),
    Bounds([MIN, MIN, MAX, MAX, MAX, MAX, MAX, MAX]),
    Bounds([MAX, MAX, MAX, MAX, MIN, MIN, MIN, MIN]),
    Bounds([MAX, MAX, MIN, MAX, MAX, MAX, MAX, MAX]),
    Bounds([2000000, MAX, 2000000, MAX, 2000000, MAX, 2000000, MAX]),
];

// Extreme bounds, each with the lowest left cell of the window in which their cells are enumerated, which is at the map's edge for those
// that leave the map.
pub const ENUMERATED_EXTREMES: [(Bounds, Cell); 7] = [
    (Bounds([MAX; 8]), Cell { x: 1999998, y: 0 }),
    (
        Bounds([2000000, MAX, 2000001, MAX, 2000000, MAX, 2000000, MAX]),
        Cell { x: 1999998, y: 0 },
    ),
    (
        Bounds([MAX, -3, MAX, MAX, MAX, 3, 0, 7]),
        Cell {
            x: 1999996,
            y: 2000000,
        },
    ),
    (
        Bounds([MAX, 0, MAX, 1, MAX, 0, MAX, -1]),
        Cell { x: -2, y: -3 },
    ),
    (
        Bounds([MAX, 0, MAX, 0, MAX, 0, MAX, 0]),
        Cell { x: -2, y: -3 },
    ),
    (
        Bounds([-5, -3, MAX, MAX, 5, MAX, 0, -7]),
        Cell { x: 0, y: 2 },
    ),
    (
        Bounds([MAX, 2, MAX, 3, MAX, 2, MAX, 3]),
        Cell { x: -3, y: -4 },
    ),
];
