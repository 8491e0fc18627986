// What an enumerated set says that a call answers.
use crate::bounds::Bounds;
use crate::sets::Set;
use morphology::Spread;
use octagon::{Octagon, Refusal};

// An octagon by its bounds, exact or filled.
#[derive(Clone, Copy, PartialEq, Eq)]
pub struct Marked {
    pub bounds: Bounds,
    pub is_filled: bool,
}

impl Marked {
    pub fn exact(bounds: Bounds) -> Marked {
        Marked {
            bounds,
            is_filled: false,
        }
    }
}

// An octagon that has no mark is exact.
impl From<Octagon> for Marked {
    fn from(o: Octagon) -> Marked {
        Marked::exact(Bounds::from(o))
    }
}

impl From<Spread> for Marked {
    fn from(s: Spread) -> Marked {
        Marked {
            bounds: Bounds::from(s.octagon()),
            is_filled: s.is_filled(),
        }
    }
}

// The map's limit.
const LIMIT: i64 = 2_000_000;

// Whether the greatest -y, x, y or -x of a cell is past the map's limit.
fn is_off_map(bounds: &Bounds) -> bool {
    let [south, _, east, _, north, _, west, _] = bounds.0;
    LIMIT < south || LIMIT < east || LIMIT < north || LIMIT < west
}

// The smallest octagon that holds a set, or its refusal: as `empty` says where the set has no cell. It is filled where it holds a cell that
// is not in the set: no octagon has just the cells of that set.
pub fn smallest(set: &Set, empty: Refusal) -> Result<Marked, Refusal> {
    let bounds = set.tightest().ok_or(empty)?;
    if is_off_map(&bounds) {
        return Err(Refusal::OffMap);
    }
    Ok(Marked {
        bounds,
        is_filled: !set.is_just(&bounds),
    })
}
