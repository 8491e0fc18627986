// Cells at places in metres.
use crate::cells::Cell;
use outline::place::Place;

// The cell that stands at a place, if one does.
pub fn cell_at(place: Place) -> Option<Cell> {
    Some(Cell {
        x: quarters(place.east)?,
        y: quarters(place.north)?,
    })
}

// The number of which a number of metres is exactly a quarter; zero is positive zero.
fn quarters(metres: f64) -> Option<i32> {
    let n = std::num::saturating_f64_to_i32(metres * 4.0);
    let is_exact = f64::from(n) == metres * 4.0;
    let is_negative_zero = metres == 0.0 && 1.0 / metres < 0.0;
    (is_exact && !is_negative_zero).then_some(n)
}
