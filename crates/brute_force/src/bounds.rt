// Document 01's eight bounds, as this program has them and as the library does.
use crate::cells::Cell;
use octagon::Octagon;

#[derive(Clone, Copy, PartialEq, Eq)]
pub struct Bounds(pub [i64; 8]);

// The nearest number that the library has.
fn nearest(c: i64) -> i32 {
    c.clamp(i64::from(i32::MIN), i64::from(i32::MAX)) as i32
}

impl Bounds {
    // Whether a cell is within each bound.
    pub fn contains(&self, cell: Cell) -> bool {
        cell.forms()
            .iter()
            .zip(&self.0)
            .all(|(form, bound)| form <= bound)
    }

    pub fn octagon(&self) -> Octagon {
        let [c0, c1, c2, c3, c4, c5, c6, c7] = self.0.map(nearest);
        Octagon::new(c0, c1, c2, c3, c4, c5, c6, c7)
    }
}

impl From<Octagon> for Bounds {
    fn from(o: Octagon) -> Bounds {
        Bounds([o.c0, o.c1, o.c2, o.c3, o.c4, o.c5, o.c6, o.c7].map(i64::from))
    }
}
