// Splits beside document 01's rule, and plots rebuilt from the pieces of their split: the start cell, dilated by each as often as it is
// counted.
use crate::bounds::Bounds;
use crate::calls::Call;
use crate::cells::{Cell, ORIGIN};
use crate::operands::Operand;
use crate::outlines::Outline;
use crate::pieces::{PIECES, Piece, Pieces};
use crate::rule;
use crate::sets::Set;
use crate::tally::Tally;
use decomposition::decompose;

// The start cell, and the counts of K1 to K13.
#[derive(Clone, Copy, PartialEq, Eq)]
pub struct Split {
    pub start: Cell,
    pub counts: [u32; 13],
}

// The bounds of a piece from (0, 0).
pub fn bounds_of(piece: Piece) -> Bounds {
    let outline = Outline {
        start: ORIGIN,
        sides: Pieces::single(piece).sides(),
    };
    outline.bounds()
}

impl From<decomposition::Split> for Split {
    fn from(s: decomposition::Split) -> Split {
        let decomposition::Start { i, j } = s.start;
        Split {
            start: Cell { x: i, y: j },
            counts: s.counts.to_array(),
        }
    }
}

impl Split {
    // Whether the counted pieces make the plot's cells from the start.
    fn rebuilds(&self, plot: &Operand) -> bool {
        let mut made = Set::one(self.start, plot.cells.middle);
        for (piece, n) in PIECES.iter().zip(&self.counts) {
            let element = Set::within(&bounds_of(*piece), ORIGIN);
            for _ in 0..*n {
                made = made.dilated(&element);
            }
        }
        made.is_just(&plot.bounds)
    }
}

// The split of the plot: it has the start and the counts expected and rebuilds the plot's cells, or is refused as the outline is.
pub fn compare(tally: &mut Tally, plot: &Operand) {
    let outline = plot.outline();
    let counts = match outline {
        Ok(outline) => rule::counts(&outline.sides),
        Err(_) => Some([0; 13]),
    };
    let given = decompose(plot.octagon()).map(Split::from);
    let agrees = match (outline, given) {
        (Ok(outline), Ok(split)) => {
            split.start == outline.start && counts == Some(split.counts) && split.rebuilds(plot)
        }
        (Err(expected), Err(refusal)) => expected == refusal,
        _ => false,
    };
    tally.note(Call::Decompose, &outline, agrees);
    tally.mix(Call::Decompose, &counts.unwrap_or([0; 13]));
}
