// The two folds, dilation and erosion: by cells, by the library's calls, and what is expected of many.
//
// After as many folds as the limit has a set is in no window, and is told by reasoning.
use crate::answers::{Marked, smallest};
use crate::calls::Call;
use crate::cells::ORIGIN;
use crate::operands::Pair;
use crate::sets::Set;
use morphology::folds::{dilate_n, erode_n};
use morphology::{closing, dilate, erode, opening};
use octagon::{Octagon, Refusal};

#[derive(Clone, Copy, PartialEq, Eq)]
pub enum Fold {
    Dilation,
    Erosion,
}

// Document 02's limit of folds.
pub const FOLD_LIMIT: u32 = 4_000_001;

// The rows of the tally for a fold.
#[derive(Clone, Copy)]
pub struct Rows {
    pub once: Call,
    pub and_back: Call,
    pub times: Call,
    pub in_two: Call,
}

impl Fold {
    pub fn opposite(self) -> Fold {
        match self {
            Fold::Dilation => Fold::Erosion,
            Fold::Erosion => Fold::Dilation,
        }
    }

    // A set folded once by an element.
    pub fn folded(self, set: &Set, element: &Set) -> Set {
        match self {
            Fold::Dilation => set.dilated(element),
            Fold::Erosion => set.eroded(element),
        }
    }

    pub fn rows(self) -> Rows {
        match self {
            Fold::Dilation => Rows {
                once: Call::Dilate,
                and_back: Call::Closing,
                times: Call::DilateN,
                in_two: Call::DilateMN,
            },
            Fold::Erosion => Rows {
                once: Call::Erode,
                and_back: Call::Opening,
                times: Call::ErodeN,
                in_two: Call::ErodeMN,
            },
        }
    }

    // One fold by the library.
    pub fn once(self, pair: &Pair) -> Result<Marked, Refusal> {
        let plot = pair.plot.octagon();
        let element = pair.element.octagon();
        match self {
            Fold::Dilation => dilate(plot, element).map(Marked::from),
            Fold::Erosion => erode(plot, element).map(Marked::from),
        }
    }

    // One fold and then the opposite one, by the library.
    pub fn and_back(self, pair: &Pair) -> Result<Marked, Refusal> {
        let plot = pair.plot.octagon();
        let element = pair.element.octagon();
        let both = match self {
            Fold::Dilation => closing(plot, element),
            Fold::Erosion => opening(plot, element),
        };
        both.map(Marked::from)
    }

    // n folds of a plot by an element, by the library.
    fn n_folds(self, plot: Octagon, element: Octagon, n: u32) -> Result<Marked, Refusal> {
        match self {
            Fold::Dilation => dilate_n(plot, element, n).map(Marked::from),
            Fold::Erosion => erode_n(plot, element, n).map(Marked::from),
        }
    }

    // n folds by the library.
    pub fn times(self, pair: &Pair, n: u32) -> Result<Marked, Refusal> {
        self.n_folds(pair.plot.octagon(), pair.element.octagon(), n)
    }

    // m folds by the library, and then n folds of what they gave. A refusal of the first is the answer of the two.
    pub fn in_two(self, pair: &Pair, m: u32, n: u32) -> Result<Marked, Refusal> {
        let first = self.times(pair, m)?;
        self.n_folds(first.bounds.octagon(), pair.element.octagon(), n)
    }

    // What is expected after no folds to four.
    pub fn expect_few(self, pair: &Pair) -> [Result<Marked, Refusal>; 5] {
        let mut few = [pair.plot.normal; 5];
        let mut folded = pair.plot.cells;
        for n in 1..5 {
            folded = self.folded(&folded, &pair.element.cells);
            few[n] = smallest(&folded, Refusal::NothingLeft);
        }
        few
    }

    // What is expected after as many folds as the limit has: a refusal, or the plot. Two cells of the element, each that many times, are
    // further apart than any two of the map: a spread has both, and no plot has room for both. One cell that is not (0, 0) moves every
    // plot off the map.
    pub fn expect_most(self, pair: &Pair) -> Result<Marked, Refusal> {
        if pair.element.cells.count() != 1 {
            return Err(match self {
                Fold::Dilation => Refusal::OffMap,
                Fold::Erosion => Refusal::NothingLeft,
            });
        }
        if pair.element.cells.lowest() != Some(ORIGIN) {
            return Err(Refusal::OffMap);
        }
        pair.plot.normal
    }
}
