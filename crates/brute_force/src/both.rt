// The plot opened by the element spread with a third octagon (document 02's U8): beside the enumerated sets, and inside the plot opened by
// the element alone.
use crate::answers::{Marked, smallest};
use crate::bounds::Bounds;
use crate::calls::Call;
use crate::cells::Cell;
use crate::operands::{Operand, Pair};
use crate::sets::Set;
use crate::tally::Tally;
use cell_count::count_cells;
use morphology::{dilate, opening};
use octagon::Refusal;

// Expects the element spread with the third octagon.
fn expect_spread(element: &Operand, third: &Operand) -> Result<Marked, Refusal> {
    element.normal.and(third.normal)?;
    smallest(&element.cells.dilated(&third.cells), Refusal::NothingLeft)
}

// Expects the plot opened by the cells of an octagon.
fn expect_opened(plot: &Operand, element: &Set) -> Result<Marked, Refusal> {
    plot.normal?;
    let left = plot.cells.eroded(element);
    smallest(&left, Refusal::NothingLeft)?;
    smallest(&left.dilated(element), Refusal::NothingLeft)
}

// The cells of an octagon by the library, or 0.
fn cells(bounds: &Bounds) -> u64 {
    count_cells(bounds.octagon()).unwrap_or(0)
}

// Whether what is expected lies inside the plot opened by the element alone, cell by cell, and has no more cells. Where nothing is left for
// the element, nothing is for both.
fn is_less(both: &Result<Marked, Refusal>, alone: &Result<Marked, Refusal>, middle: Cell) -> bool {
    match (both, alone) {
        (Err(_), _) => true,
        (Ok(_), Err(refusal)) => *refusal == Refusal::OffMap,
        (Ok(both), Ok(alone)) => {
            let less = cells(&both.bounds);
            let more = cells(&alone.bounds);
            0 < less && less <= more && Set::within(&both.bounds, middle).is_inside(&alone.bounds)
        }
    }
}

// The spread of the element with the third octagon, and the plot opened by what it gave, beside what is expected of them; and the opening
// inside the one by the element alone. A refusal of the spread is the answer of the two.
pub fn compare(tally: &mut Tally, pair: &Pair, third: &Operand, alone: &Result<Marked, Refusal>) {
    let element = pair.element.octagon();
    let spread = expect_spread(&pair.element, third);
    let given_spread = dilate(element, third.octagon());

    let middle = pair.element.cells.middle + third.cells.middle;
    let opened = spread.and_then(|by| expect_opened(&pair.plot, &Set::within(&by.bounds, middle)));
    let given_opened = given_spread.and_then(|by| opening(pair.plot.octagon(), by.octagon()));

    let is_expected = spread == given_spread.map(Marked::from)
        && opened == given_opened.map(Marked::from)
        && is_less(&opened, alone, pair.plot.cells.middle);
    tally.note(Call::OpenByBoth, &opened, is_expected);
}
