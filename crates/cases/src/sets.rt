// Sets of cells in a window of 8 by 8 cells that stands anywhere on the map or off it, enumerated cell by cell.
ghost use Rattle.std.specs.Prelude.{◌<◌};

use crate::bounds::{Bounds, Cell};

// A set: bit k is the cell k % 8 east and k / 8 north of the window's lowest left cell. The sets here are so small that sums of their
// cells stay in a window.
#[derive(Clone, Copy, PartialEq, Eq)]
pub struct Set {
    bits: u64,
    corner: Cell,
}

fn sum(a: Cell, b: Cell) -> Cell {
    Cell {
        x: a.x.wrapping_add(b.x),
        y: a.y.wrapping_add(b.y),
    }
}

fn difference(a: Cell, b: Cell) -> Cell {
    Cell {
        x: a.x.wrapping_sub(b.x),
        y: a.y.wrapping_sub(b.y),
    }
}

impl Set {
    // The cells within bounds of the window that has its lowest left cell at (x, y).
    pub fn within(bounds: Bounds, x: i32, y: i32) -> Self {
        let corner = Cell { x, y };
        let mut set = Self { bits: 0, corner };
        for k in 0..64u8 {
            if bounds.hold(set.cell(k)) {
                set.bits |= 1 << k;
            }
        }
        set
    }

    fn cell(self, k: u8) -> Cell {
        let (x, y) = (i32::from(k % 8), i32::from(k / 8));
        sum(self.corner, Cell { x, y })
    }

    fn has(self, k: u8) -> bool {
        self.bits
            .checked_shr(u32::from(k))
            .is_some_and(|rest| rest & 1 == 1)
    }

    // Every sum of a cell of one set and a cell of another.
    pub fn sums(self, other: Self) -> Self {
        let mut bits = 0;
        for k in 0..64u8 {
            if other.has(k) {
                bits |= self.bits << k;
            }
        }
        let corner = sum(self.corner, other.corner);
        Self { bits, corner }
    }

    // Every position that, moved by any cell of the other set, is in this one.
    pub fn positions(self, other: Self) -> Self {
        let mut bits = u64::MAX;
        for k in 0..64u8 {
            if other.has(k) {
                bits &= self.bits >> k;
            }
        }
        let corner = difference(self.corner, other.corner);
        Self { bits, corner }
    }

    // The number of cells.
    pub fn count(self) -> u64 {
        u64::from(self.bits.count_ones())
    }

    // The bounds that the set reaches, unless it has no cell.
    pub fn reach(self) -> Option<Bounds> {
        (0..64u8)
            .filter(|k| self.has(*k))
            .map(|k| Bounds::reached_by(self.cell(k)))
            .reduce(Bounds::greatest)
    }

    // The cells within the bounds that the set reaches: those of the smallest octagon that holds it.
    pub fn within_reach(self) -> Self {
        match self.reach() {
            Some(bounds) => Self::within(bounds, self.corner.x, self.corner.y),
            None => self,
        }
    }

    // Whether no octagon has just the cells of the set.
    pub fn has_holes(self) -> bool {
        self.within_reach() != self
    }

    // The last cell of the set from a cell on, each `step` after the one before.
    fn last(self, from: u8, step: usize) -> u8
        requires { 0 < step }
    {
        (from..64)
            .step_by(step)
            .take_while(|k| self.has(*k))
            .last()
            .unwrap_or(from)
    }

    // Corner 2 of the outline: from the lowest left cell to the last along d0 (1,0), and from there to the last along d1 (1,1).
    pub fn corner_2(self) -> Option<Cell> {
        let start = (0..64u8).find(|k| self.has(*k))?;
        let corner_1 = self.last(start, 1);
        Some(self.cell(self.last(corner_1, 9)))
    }
}
