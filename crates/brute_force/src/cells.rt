// Cells of the map, document 01's steps from one to the next, and the left sides of its eight inequalities.
//
// No coordinate here is further than 11,000,000 from 0, so that no sum of two wraps: draws.rt says where the windows of operands stand, and a
// set is folded at most four times by an operand that is not about (0, 0).
use std::ops::{Add, Sub};

#[derive(Clone, Copy, PartialEq, Eq)]
pub struct Cell {
    pub x: i32,
    pub y: i32,
}

pub const ORIGIN: Cell = Cell { x: 0, y: 0 };

// The steps d0 to d7.
pub const STEPS: [Cell; 8] = [
    Cell { x: 1, y: 0 },
    Cell { x: 1, y: 1 },
    Cell { x: 0, y: 1 },
    Cell { x: -1, y: 1 },
    Cell { x: -1, y: 0 },
    Cell { x: -1, y: -1 },
    Cell { x: 0, y: -1 },
    Cell { x: 1, y: -1 },
];

impl Add for Cell {
    type Output = Cell;

    fn add(self, other: Cell) -> Cell {
        Cell {
            x: self.x.wrapping_add(other.x),
            y: self.y.wrapping_add(other.y),
        }
    }
}

impl Sub for Cell {
    type Output = Cell;

    fn sub(self, other: Cell) -> Cell {
        Cell {
            x: self.x.wrapping_sub(other.x),
            y: self.y.wrapping_sub(other.y),
        }
    }
}

impl Cell {
    // The cell after n steps.
    pub fn walked(self, step: Cell, n: u32) -> Cell {
        let mut here = self;
        for _ in 0..n {
            here = here + step;
        }
        here
    }

    // The left sides of the eight inequalities.
    pub fn forms(self) -> [i64; 8] {
        let x = i64::from(self.x);
        let y = i64::from(self.y);
        [-y, x - y, x, x + y, y, y - x, -x, -x - y]
    }
}
