// n-fold dilation, erosion and opening, in constant time whatever n is: document 01's n-fold spread and trim, and for `spectrum` the two
// after each other.
ghost use Rattle.std.specs.Prelude.{◌≡◌, ◌≤◌};
ghost use Rattle.octagon.specs.Answers.{outcome};
ghost use Rattle.octagon.specs.Forms.{form_outcome};
ghost use Rattle.morphology.specs.Marks.{spread_outcome, unmarked};
ghost use Rattle.morphology.specs.Premises.{opened_n};
ghost use Rattle.morphology.specs.Folds as spec;

use crate::Spread;
use crate::bounds::{fit_wide, multiples, place_wide, wide_differences, wide_sums};
use crate::rows::are_opposed;
use octagon::bounds::{narrow, widen};
use octagon::{NormalForm, Octagon, Refusal};

// The most folds of a call.
pub const FOLD_LIMIT: u32 = 4_000_001;

// The plot dilated n times by the element; filled where n is at least 1 and the two are opposed rows.
#[tactic(auto, unfolding(crate::specs::Folds::dilation_n))]
pub fn dilate_n(plot: Octagon, element: Octagon, n: u32) -> Result<Spread, Refusal>
    ensures { spread_outcome result ≡ spec.dilation_n plot element n }
{
    if FOLD_LIMIT < n {
        return Err(Refusal::TooManyFolds);
    }
    let a = NormalForm::of(plot)?;
    let b = NormalForm::of(element)?;
    let spread = place_wide(wide_sums(widen(a.bounds), multiples(n, b.bounds)))?;
    Ok(Spread::new(spread, (0 < n) & are_opposed(a.bounds, b.bounds)))
}

// The plot eroded n times by the element.
#[tactic(auto, unfolding(crate::specs::Folds::erosion_n))]
pub fn erode_n(plot: Octagon, element: Octagon, n: u32) -> Result<Octagon, Refusal>
    ensures { outcome result ≡ spec.erosion_n plot element n }
{
    if FOLD_LIMIT < n {
        return Err(Refusal::TooManyFolds);
    }
    let a = NormalForm::of(plot)?;
    let b = NormalForm::of(element)?;
    Ok(fit_wide(wide_differences(widen(a.bounds), multiples(n, b.bounds)))?.bounds)
}

// A plot opened by n folds of an element: n trims, and then n spreads of what they leave. It lies in the plot, so the spreads are on the
// map. It asks for few enough folds, and is for `spectrum`, not for users.
pub fn open_forms_n(a: NormalForm, b: NormalForm, n: u32) -> Result<NormalForm, Refusal>
    requires { n ≤ spec.fold_limit }
    ensures { form_outcome result ≡ unmarked (opened_n a.bounds b.bounds n) }
{
    let folded = multiples(n, b.bounds);
    let left = fit_wide(wide_differences(widen(a.bounds), folded))?;
    let opened = narrow(wide_sums(widen(left.bounds), folded));
    Ok(NormalForm { bounds: opened })
}
