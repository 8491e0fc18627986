// One octagon by itself: its normal form, its cell count, its outline and a corner beside the enumerated set.
use crate::answers::{Marked, smallest};
use crate::bounds::Bounds;
use crate::calls::Call;
use crate::cells::Cell;
use crate::outlines::Outline;
use crate::places::cell_at;
use crate::sets::Set;
use crate::tally::Tally;
use cell_count::count_cells;
use octagon::{Octagon, Refusal, normalise};
use outline::{to_outline, vertex_place};

// An octagon, its cells, and what is expected of its normal form.
#[derive(Clone, Copy)]
pub struct Operand {
    pub bounds: Bounds,
    pub cells: Set,
    pub normal: Result<Marked, Refusal>,
}

// A plot and an element.
#[derive(Clone, Copy)]
pub struct Pair {
    pub plot: Operand,
    pub element: Operand,
}

impl Operand {
    // The octagon of bounds whose cells are all in the window about a middle.
    pub fn new(bounds: Bounds, middle: Cell) -> Operand {
        let cells = Set::within(&bounds, middle);
        Operand {
            bounds,
            cells,
            normal: smallest(&cells, Refusal::NoCell),
        }
    }

    pub fn octagon(&self) -> Octagon {
        self.bounds.octagon()
    }

    // What is expected of its outline.
    pub fn outline(&self) -> Result<Outline, Refusal> {
        self.normal?;
        Outline::round(&self.cells).ok_or(Refusal::NoCell)
    }

    // What is expected of a corner: that of the outline, of which there are eight.
    fn corner(&self, k: u32) -> Result<Cell, Refusal> {
        let outline = self.outline()?;
        if 7 < k {
            return Err(Refusal::NoVertex);
        }
        Ok(outline.corner(k as usize))
    }
}

// The normal form and the calls after it, of which each is refused as the normal form is. The corner is the one with the pair's number, of
// nine, of which the last is refused.
pub fn compare(tally: &mut Tally, operand: &Operand) {
    let o = operand.octagon();
    let normal = normalise(o).map(Marked::from);
    tally.compare(Call::Normalise, &operand.normal, &normal);

    let count = operand.normal.map(|_| operand.cells.count() as u64);
    tally.compare(Call::CountCells, &count, &count_cells(o));

    let outline = to_outline(o).map(Outline::from);
    tally.compare(Call::ToOutline, &operand.outline(), &outline);

    let k = tally.pair % 9;
    let corner = operand.corner(k);
    let is_there = corner.map(Some) == vertex_place(o, k).map(cell_at);
    tally.note(Call::VertexPlace, &corner, is_there);
}
