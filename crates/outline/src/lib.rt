// Outlines, the field's boundary code (B-code), to octagons and back, and the vertices of an octagon in metres.
//
// tables.rt and specs/Tables.antt have the step vectors and the pieces. specs/Walk.antt has the walk round an outline and the cells inside
// it; specs/Tracing.antt, Outlining.antt and Places.antt what the three calls answer, specs/Meaning.antt what that means;
// proofs/Tracings.antt, OneCell.antt, Vertices.antt, RoundTrips.antt and Metres.antt the theorems between them. comparing.rt and
// specs/Sameness.antt tell whether two outlines are one.
#![tactic(auto)]

ghost use Rattle.std.specs.Prelude.{◌≡◌};
ghost use Rattle.octagon.specs.Answers.{outcome};
ghost use Rattle.outline.specs.Tracing.{traced};
ghost use Rattle.outline.specs.Outlining.{outlined};
ghost use Rattle.outline.specs.Places.{located};
ghost use Rattle.outline.specs.Walk.{with_sides, sides_of};

use octagon::{NormalForm, Octagon, Refusal};
use place::Place;

mod closing;
pub mod comparing;
mod drawing;
mod locating;
pub mod place;
mod sides;
pub mod tables;
mod walk;

// Document 01's outline: the start, its lowest corner and of the lowest the leftmost, and eight side lengths, counter-clockwise.
#[derive(Clone, Copy, Debug, PartialEq, Eq, Hash)]
pub struct Outline {
    pub i: i32,
    pub j: i32,
    pub n0: u32,
    pub n1: u32,
    pub n2: u32,
    pub n3: u32,
    pub n4: u32,
    pub n5: u32,
    pub n6: u32,
    pub n7: u32,
}

impl Outline {
    // The outline of a start and the lengths of its sides.
    pub fn with_sides(i: i32, j: i32, n: [u32; 8]) -> Outline
        ensures { result ≡ with_sides i j n }
    {
        let [n0, n1, n2, n3, n4, n5, n6, n7] = n;
        Outline {
            i,
            j,
            n0,
            n1,
            n2,
            n3,
            n4,
            n5,
            n6,
            n7,
        }
    }

    // The lengths of its sides, n0 to n7.
    pub fn sides(self) -> [u32; 8]
        ensures { result ≡ sides_of self }
    {
        [
            self.n0, self.n1, self.n2, self.n3, self.n4, self.n5, self.n6, self.n7,
        ]
    }
}

// The octagon of an outline, under the name that README gives this conversion. Refuses one that does not close, then one with a cell off the map.
#[tactic(auto, unfolding(crate::specs::Tracing::traced))]
pub fn to_octagon(o: Outline) -> Result<Octagon, Refusal>
    ensures { outcome result ≡ traced o }
{
    if !closing::closes(o) {
        return Err(Refusal::NotClosed);
    }
    drawing::draw(o)
}

// The outline of any eight bounds, under the name that README gives it: that of their normal form. Refuses what `normalise` refuses.
#[tactic(auto, unfolding(crate::specs::Outlining::outlined))]
pub fn to_outline(o: Octagon) -> Result<Outline, Refusal>
    ensures { outcome result ≡ outlined o }
{
    Ok(sides::outline_of(NormalForm::of(o)?))
}

// Document 01's corner in metres: vertex k of the octagon of any eight bounds. Refuses what `normalise` refuses, then a k above 7.
#[tactic(auto, unfolding(crate::specs::Places::located))]
pub fn vertex_place(o: Octagon, k: u32) -> Result<Place, Refusal>
    ensures { outcome result ≡ located o k }
{
    locating::place_of_vertex(to_outline(o)?, k)
}
