// Sets of cells, each cell looked at by itself, in a square window of WIDTH by WIDTH cells, which stands anywhere on the map or off it.
//
// Cell k of a window is k % WIDTH east and k / WIDTH north of its lowest left cell. No cell off its window is in a set.
ghost use Rattle.std.specs.Prelude.{◌<◌};

use crate::bounds::Bounds;
use crate::cells::Cell;

const REACH: i32 = 24;

pub const WIDTH: usize = 49;

const SIZE: usize = 2401;

#[derive(Clone, Copy)]
pub struct Set {
    pub middle: Cell,
    cells: [bool; SIZE],
}

impl Set {
    fn empty(middle: Cell) -> Set {
        Set {
            middle,
            cells: [false; SIZE],
        }
    }

    // One cell, in the window about a middle.
    pub fn one(cell: Cell, middle: Cell) -> Set {
        let mut set = Set::empty(middle);
        set.insert(cell);
        set
    }

    // The cells within bounds, in the window about a middle.
    pub fn within(bounds: &Bounds, middle: Cell) -> Set {
        let mut set = Set::empty(middle);
        for k in 0..SIZE {
            set.cells[k] = bounds.contains(set.cell(k));
        }
        set
    }

    // Cell k of the window.
    fn cell(&self, k: usize) -> Cell
        requires { k < SIZE }
    {
        let x = (k % WIDTH) as i32 - REACH;
        let y = (k / WIDTH) as i32 - REACH;
        self.middle + Cell { x, y }
    }

    // The number of a cell of the window.
    fn index(&self, cell: Cell) -> Option<usize> {
        let Cell { x, y } = cell - self.middle + Cell { x: REACH, y: REACH };
        let column = usize::try_from(x).ok()?;
        let row = usize::try_from(y).ok()?;
        (column < WIDTH && row < WIDTH).then_some(row * WIDTH + column)
    }

    pub fn has(&self, cell: Cell) -> bool {
        self.index(cell).and_then(|k| self.cells.get(k)) == Some(&true)
    }

    fn insert(&mut self, cell: Cell) {
        if let Some(k) = self.index(cell) {
            if let Some(is_in) = self.cells.get_mut(k) {
                *is_in = true;
            }
        }
    }

    // The number of cells.
    pub fn count(&self) -> usize {
        self.cells.iter().filter(|is_in| **is_in).count()
    }

    // The lowest cell, and of the lowest the leftmost.
    pub fn lowest(&self) -> Option<Cell> {
        let k = self.cells.iter().position(|is_in| *is_in)?;
        Some(self.cell(k))
    }

    // The tightest bounds: the greatest that each left side is on a cell.
    pub fn tightest(&self) -> Option<Bounds> {
        let mut most = self.lowest()?.forms();
        for (k, is_in) in self.cells.iter().enumerate() {
            if *is_in {
                for (bound, form) in most.iter_mut().zip(self.cell(k).forms()) {
                    *bound = form.max(*bound);
                }
            }
        }
        Some(Bounds(most))
    }

    // Whether the cells are just those of the window that are within bounds.
    pub fn is_just(&self, bounds: &Bounds) -> bool {
        (0..SIZE).all(|k| self.cells[k] == bounds.contains(self.cell(k)))
    }

    // Whether each cell is within bounds.
    pub fn is_inside(&self, bounds: &Bounds) -> bool {
        (0..SIZE).all(|k| !self.cells[k] || bounds.contains(self.cell(k)))
    }

    // The sums of a cell of each.
    pub fn dilated(&self, element: &Set) -> Set {
        let mut sums = Set::empty(self.middle + element.middle);
        for (k, is_in) in element.cells.iter().enumerate() {
            if *is_in {
                sums.add_moved(self, element.cell(k));
            }
        }
        sums
    }

    // Adds the cells of a set, each moved by a cell.
    fn add_moved(&mut self, set: &Set, by: Cell) {
        for (k, is_in) in set.cells.iter().enumerate() {
            if *is_in {
                self.insert(set.cell(k) + by);
            }
        }
    }

    // The positions p with p + f in the set for every cell f of the element.
    pub fn eroded(&self, element: &Set) -> Set {
        let mut left = Set {
            middle: self.middle - element.middle,
            cells: [true; SIZE],
        };
        for (k, is_in) in element.cells.iter().enumerate() {
            if *is_in {
                left.keep_moved(self, element.cell(k));
            }
        }
        left
    }

    // Keeps the positions that are in a set when they are moved by a cell.
    fn keep_moved(&mut self, set: &Set, by: Cell) {
        for k in 0..SIZE {
            self.cells[k] = self.cells[k] && set.has(self.cell(k) + by);
        }
    }
}
