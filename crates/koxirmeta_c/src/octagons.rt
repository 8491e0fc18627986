// Octagons in slices of eight bounds.
ghost use Rattle.std.specs.Prelude.{◌≡◌, ◌&&◌, length};
ghost use Rattle.octagon.specs.Answers.{outcome};
ghost use Rattle.morphology.specs.Marks.{spread_outcome};
ghost use Rattle.koxirmeta_c.specs.Calls as calls;

use crate::ACCEPTED;
use crate::giving::give_array;
use morphology::Spread;
use octagon::{Octagon, Refusal};

// The octagon of eight bounds; the one cell at the origin of a slice of another length.
pub fn octagon_in(s: &[i32]) -> Octagon
    ensures { result ≡ calls.octagon_in s.now }
{
    let &[c0, c1, c2, c3, c4, c5, c6, c7] = s else {
        return Octagon::ORIGIN;
    };
    Octagon {
        c0,
        c1,
        c2,
        c3,
        c4,
        c5,
        c6,
        c7,
    }
}

// The bounds of an octagon.
#[tactic(auto, unfolding(crate::specs::Calls::bounds_of))]
fn bounds_of(o: Octagon) -> [i32; 8]
    ensures { result ≡ calls.bounds_of o }
{
    [o.c0, o.c1, o.c2, o.c3, o.c4, o.c5, o.c6, o.c7]
}

// Hands an octagon over, where the slices that were read and `out` have the right lengths.
pub fn give(answer: Result<Octagon, Refusal>, fits: bool, out: &mut [i32]) -> u32
    ensures { calls.Hands (calls.fitted (fits && calls.is_eight out.old) (outcome answer)) calls.bounds_of out.old out.new result }
{
    give_array(answer.map(bounds_of), fits, out)
}

// The marks of an octagon that is handed over.
const EXACT: u32 = 0;

const FILLED: u32 = 1;

// Whether an operand, another and the slice for the result have eight numbers each.
pub fn are_eights(plot: &[i32], element: &[i32], out: &[i32]) -> bool
    ensures { result ≡ (calls.is_eight plot.now && calls.is_eight element.now && calls.is_eight out.now) }
{
    (plot.len() == 8) & (element.len() == 8) & (out.len() == 8)
}

// Hands an octagon and its mark over, where `out` has eight places.
pub fn give_marked(answer: Result<Spread, Refusal>, out: &mut [i32], mark: &mut u32) -> u32
    requires { length out.old ≡ 8 }
    ensures { calls.Hands (spread_outcome answer) calls.marked_parts (out.old, mark.old) (out.new, mark.new) result }
{
    match answer {
        Ok(spread) => {
            out.copy_from_slice(&bounds_of(spread.octagon()));
            *mark = if spread.is_filled() { FILLED } else { EXACT };
            ACCEPTED
        }
        Err(refusal) => refusal.number(),
    }
}
