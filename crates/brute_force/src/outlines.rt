// Outlines, their walks by document 01's steps, and the octagons inside them beside the enumerated cells.
use crate::answers::{Marked, smallest};
use crate::bounds::Bounds;
use crate::calls::Call;
use crate::cells::{Cell, STEPS};
use crate::operands::Operand;
use crate::sets::{Set, WIDTH};
use crate::tally::Tally;
use octagon::Refusal;
use outline::to_octagon;

// The start, and the sides n0 to n7.
#[derive(Clone, Copy, PartialEq, Eq)]
pub struct Outline {
    pub start: Cell,
    pub sides: [u32; 8],
}

// How many steps from a cell stay in a set.
fn length(cells: &Set, start: Cell, step: Cell) -> u32 {
    let mut here = start;
    for n in 0..WIDTH as u32 {
        here = here + step;
        if !cells.has(here) {
            return n;
        }
    }
    WIDTH as u32
}

impl Outline {
    // The walk round a set, along its own cells, from its lowest cell, and of the lowest the leftmost. A set with no cell has none.
    pub fn round(cells: &Set) -> Option<Outline> {
        let start = cells.lowest()?;
        let mut sides = [0; 8];
        let mut here = start;
        for (side, step) in sides.iter_mut().zip(STEPS) {
            *side = length(cells, here, step);
            here = here.walked(step, *side);
        }
        Some(Outline { start, sides })
    }

    // Where the walk is after k sides.
    pub fn corner(&self, k: usize) -> Cell {
        let mut here = self.start;
        for (step, side) in STEPS.iter().zip(&self.sides).take(k) {
            here = here.walked(*step, *side);
        }
        here
    }

    // Whether the walk ends at its start.
    fn closes(&self) -> bool {
        self.corner(8) == self.start
    }

    // The bounds of the cells inside: the cells on or to the left of each side. The side from corner k along dk has on its left the cells
    // at which the left side of inequality k is no greater than at the corner.
    pub fn bounds(&self) -> Bounds {
        let mut bounds = [0; 8];
        for k in 0..8 {
            bounds[k] = self.corner(k).forms()[k];
        }
        Bounds(bounds)
    }

    // Makes one side longer, so that the outline does not close; or two opposite sides; or none.
    fn lengthen(&mut self, choice: usize) {
        let k = choice % 8;
        if choice < 16 {
            self.sides[k] = self.sides[k].wrapping_add(1);
        }
        if choice / 8 == 1 {
            let opposite = (k + 4) % 8;
            self.sides[opposite] = self.sides[opposite].wrapping_add(1);
        }
    }
}

impl From<Outline> for outline::Outline {
    fn from(o: Outline) -> outline::Outline {
        outline::Outline::with_sides(o.start.x, o.start.y, o.sides)
    }
}

impl From<outline::Outline> for Outline {
    fn from(o: outline::Outline) -> Outline {
        Outline {
            start: Cell { x: o.i, y: o.j },
            sides: o.sides(),
        }
    }
}

// Expects the octagon of the cells inside an outline; refused where the walk does not end at its start.
fn expect_inside(outline: &Outline, middle: Cell) -> Result<Marked, Refusal> {
    if !outline.closes() {
        return Err(Refusal::NotClosed);
    }
    let inside = Set::within(&outline.bounds(), middle);
    smallest(&inside, Refusal::NoCell)
}

// An outline to an octagon: the walk round the plot's cells, where it has some, lengthened.
pub fn compare_back(tally: &mut Tally, plot: &Operand) {
    if let Some(mut outline) = Outline::round(&plot.cells) {
        outline.lengthen((tally.pair % 20) as usize);
        let expected = expect_inside(&outline, plot.cells.middle);
        let given = to_octagon(outline::Outline::from(outline)).map(Marked::from);
        tally.compare(Call::ToOctagon, &expected, &given);
    }
}
