// The decomposition of an octagon into thirteen pieces (document 01's split), in constant time.
//
// `outline::tables` has the table of the pieces, specs/Pieces.antt the set that counted pieces make, specs/Rule.antt document 01's rule
// for the counts, specs/Pairs.antt the eight cases of source document 000, specs/Splitting.antt what `decompose` answers,
// specs/Meaning.antt what that means, proofs/Decompositions.antt, proofs/ByCases.antt and proofs/Exchange.antt the theorems.
#![tactic(auto)]

ghost use Rattle.std.specs.Prelude.{◌≡◌};
ghost use Rattle.octagon.specs.Answers.{outcome};
ghost use Rattle.decomposition.specs.Pieces as pieces;
ghost use Rattle.decomposition.specs.Splitting as splitting;

use octagon::{Octagon, Refusal};
use outline::tables::piece_sides;
use outline::{Outline, to_outline};

mod counting;
mod pairing;

// The cell from which the pieces spread: document 01's start.
#[derive(Clone, Copy, Debug, PartialEq, Eq, Hash)]
pub struct Start {
    pub i: i32,
    pub j: i32,
}

// How many there are of each piece.
#[derive(Clone, Copy, Debug, PartialEq, Eq, Hash)]
pub struct Counts {
    pub k1: u32,
    pub k2: u32,
    pub k3: u32,
    pub k4: u32,
    pub k5: u32,
    pub k6: u32,
    pub k7: u32,
    pub k8: u32,
    pub k9: u32,
    pub k10: u32,
    pub k11: u32,
    pub k12: u32,
    pub k13: u32,
}

impl Counts {
    // The counts in the pieces' order, K1 to K13.
    pub fn to_array(self) -> [u32; 13]
        ensures { result ≡ pieces.listed self }
    {
        [
            self.k1, self.k2, self.k3, self.k4, self.k5, self.k6, self.k7, self.k8, self.k9,
            self.k10, self.k11, self.k12, self.k13,
        ]
    }
}

// Document 01's split.
#[derive(Clone, Copy, Debug, PartialEq, Eq, Hash)]
pub struct Split {
    pub start: Start,
    pub counts: Counts,
}

// Document 01's pieces, K1 in row 0 to K13 in row 12 of the table: row k as an outline from (0, 0), and the one cell (0, 0) past its end.
#[tactic(auto, unfolding(crate::specs::Pieces::piece_of))]
pub fn piece(k: usize) -> Outline
    ensures { result ≡ pieces.piece_of k }
{
    Outline::with_sides(0, 0, piece_sides(k))
}

// The start cell of an outline, and the counts of the pieces that make it.
#[tactic(auto, unfolding(crate::specs::Splitting::split_of))]
fn split_of(o: Outline) -> Split
    ensures { result ≡ splitting.split_of o }
{
    Split {
        start: Start { i: o.i, j: o.j },
        counts: counting::count_pieces(o),
    }
}

// The start cell and the counts of the pieces that make any eight bounds' octagon. Refuses what `normalise` refuses.
#[tactic(auto, unfolding(crate::specs::Splitting::decomposition))]
pub fn decompose(o: Octagon) -> Result<Split, Refusal>
    ensures { outcome result ≡ splitting.decomposition o }
{
    Ok(split_of(to_outline(o)?))
}
