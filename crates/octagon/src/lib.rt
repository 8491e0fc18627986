// Octagons of whole cells by their eight bounds, and their normal form.
//
// The cells of an octagon are those with -y <= c0, x-y <= c1, x <= c2, x+y <= c3, y <= c4, -x+y <= c5, -x <= c6, -x-y <= c7.
// specs/Cells.antt has the sets, specs/NormalForm.antt what `normalise` answers, proofs/NormalForms.antt the theorems between them.
#![tactic(auto)]

ghost use Rattle.std.specs.Prelude.{◌≡◌, pos};
ghost use Rattle.std.specs.Int.Signed.{le_z};
ghost use Rattle.octagon.specs.NormalForm as form;
ghost use Rattle.octagon.specs.Answers.{outcome};

pub mod bounds;
mod each;
mod form;
mod refusal;

pub use form::NormalForm;
pub use refusal::Refusal;

// Document 01's plot, frame or clearance: eight bounds, every value allowed. In 64 bits they are `bounds::Bounds`.
#[derive(Clone, Copy, Debug, PartialEq, Eq, Hash)]
pub struct Octagon<T = i32> {
    pub c0: T,
    pub c1: T,
    pub c2: T,
    pub c3: T,
    pub c4: T,
    pub c5: T,
    pub c6: T,
    pub c7: T,
}

impl Octagon {
    // The map's limit, in cells from its middle.
    pub const LIMIT: i32 = 2_000_000;

    // The one cell at (0, 0).
    pub const ORIGIN: Octagon = Octagon {
        c0: 0,
        c1: 0,
        c2: 0,
        c3: 0,
        c4: 0,
        c5: 0,
        c6: 0,
        c7: 0,
    };

    pub fn new(c0: i32, c1: i32, c2: i32, c3: i32, c4: i32, c5: i32, c6: i32, c7: i32) -> Self
        ensures { result ≡ record { c0 = c0; c1 = c1; c2 = c2; c3 = c3; c4 = c4; c5 = c5; c6 = c6; c7 = c7 } }
    {
        Self {
            c0,
            c1,
            c2,
            c3,
            c4,
            c5,
            c6,
            c7,
        }
    }
}

// The normal form of any eight bounds: the same cells, each bound reached. Refuses bounds with no cell, then those with a cell off the map.
pub fn normalise(o: Octagon) -> Result<Octagon, Refusal>
    ensures { outcome result ≡ form.normalised o }
{
    Ok(NormalForm::of(o)?.bounds)
}

// Whether a bound is at most r.
fn at_most(c: i64, r: u32) -> bool
    ensures { result ≡ le_z c (pos r) }
{
    c <= r as i64
}

// Whether normalised bounds are within the square of cells with both coordinates from -r to r, by the even ones.
fn are_within(r: u32, c0: i64, c2: i64, c4: i64, c6: i64) -> bool
    ensures { result ≡ form.are_within r c0 c2 c4 c6 }
{
    at_most(c0, r) & at_most(c2, r) & at_most(c4, r) & at_most(c6, r)
}

// Whether normalised bounds are on the map, by the even ones.
pub fn on_map(c0: i64, c2: i64, c4: i64, c6: i64) -> bool
    ensures { result ≡ form.are_within_limit c0 c2 c4 c6 }
{
    are_within(Octagon::LIMIT as u32, c0, c2, c4, c6)
}

// Whether an octagon whose bounds are normalised is within the square of cells with both coordinates from -r to r.
pub fn is_within(a: Octagon, r: u32) -> bool
    ensures { result ≡ form.is_within r a }
{
    are_within(r, a.c0 as i64, a.c2 as i64, a.c4 as i64, a.c6 as i64)
}
