// Sums, differences and multiples of bounds in 64 bits, and the answers that they make; and the same of octagons.
ghost use Rattle.std.specs.Prelude.{◌≡◌, true};
ghost use Rattle.std.specs.Int.{w32, w64};
ghost use Rattle.octagon.specs.Answers.{outcome, octagon_of};
ghost use Rattle.octagon.specs.Forms.{form_outcome};
ghost use Rattle.octagon.specs.NormalForm.{is_on_map, normalised, placed};
ghost use Rattle.octagon.specs.Widths.{Held, Roomy};
ghost use Rattle.morphology.specs.Operations as operations;
ghost use Rattle.morphology.specs.Folds as folds;

use integers::times;
use octagon::bounds::{Bounds, is_on_map, narrow, normalise_bounds, widen};
use octagon::{NormalForm, Octagon, Refusal};

// An octagon's bounds, n times each.
#[tactic(auto, unfolding(crate::specs::Folds::multiples))]
pub fn multiples(n: u32, b: Octagon) -> Bounds
    ensures { octagon_of result ≡ folds.multiples n b }
{
    b.map(|c| times(n, c))
}

// The sums of bounds.
#[tactic(auto, unfolding(crate::specs::Operations::sums))]
pub fn wide_sums(a: Bounds, b: Bounds) -> Bounds
    requires { Held w64 (operations.sums (octagon_of a) (octagon_of b)) }
    ensures { octagon_of result ≡ operations.sums (octagon_of a) (octagon_of b) }
{
    a.zip_with(b, |p, q| p + q)
}

// The differences of bounds.
#[tactic(auto, unfolding(crate::specs::Operations::differences))]
pub fn wide_differences(a: Bounds, b: Bounds) -> Bounds
    requires { Held w64 (operations.differences (octagon_of a) (octagon_of b)) }
    ensures { octagon_of result ≡ operations.differences (octagon_of a) (octagon_of b) }
{
    a.zip_with(b, |p, q| p - q)
}

// Normalised bounds as an answer: refused where they leave the map, and else handed back in 32 bits.
#[tactic(auto, unfolding(octagon::specs::NormalForm::placed))]
pub fn place_wide(b: Bounds) -> Result<Octagon, Refusal>
    requires { is_on_map (octagon_of b) ≡ true → Held w32 (octagon_of b) }
    ensures { outcome result ≡ placed (octagon_of b) }
{
    if is_on_map(b) {
        return Ok(narrow(b));
    }
    Err(Refusal::OffMap)
}

// The normal form of differences of bounds: where they hold no cell, no position fits.
#[tactic(auto, using(octagon::proofs::NormalForms::normalised_again))]
pub fn fit_wide(d: Bounds) -> Result<NormalForm, Refusal>
    requires { Roomy 3 (octagon_of d) }
    ensures { form_outcome result ≡ operations.fitting (normalised (octagon_of d)) }
{
    match normalise_bounds(d) {
        Ok(bounds) => Ok(NormalForm { bounds }),
        Err(Refusal::NoCell) => Err(Refusal::NothingLeft),
        Err(refusal) => Err(refusal),
    }
}

// The sums of two octagons' bounds. Apart from `wide_sums`: each asks that its sums fit its own width, which a sum of any type cannot say.
#[tactic(auto, unfolding(crate::specs::Operations::sums))]
pub fn sums(a: Octagon, b: Octagon) -> Octagon
    requires { Held w32 (operations.sums a b) }
    ensures { result ≡ operations.sums a b }
{
    a.zip_with(b, |p, q| p + q)
}

// The differences of two octagons' bounds, apart from `wide_differences` for the same reason.
#[tactic(auto, unfolding(crate::specs::Operations::differences))]
pub fn differences(a: Octagon, b: Octagon) -> Octagon
    requires { Held w32 (operations.differences a b) }
    ensures { result ≡ operations.differences a b }
{
    a.zip_with(b, |p, q| p - q)
}

// An octagon's normalised bounds as an answer: no more than `place_wide`, so that its callers need not widen.
pub fn place(o: Octagon) -> Result<Octagon, Refusal>
    ensures { outcome result ≡ placed o }
{
    place_wide(widen(o))
}

// The normal form of an octagon of differences: no more than `fit_wide`, so that its callers need not widen.
pub fn fit(d: Octagon) -> Result<NormalForm, Refusal>
    ensures { form_outcome result ≡ operations.fitting (normalised d) }
{
    fit_wide(widen(d))
}
