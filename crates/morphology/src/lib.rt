// Dilation, erosion, opening and closing of octagons (document 01's spread, trim, opening and closing), and the n-fold forms.
//
// Each call takes any eight bounds for each operand, normalises the two once, and answers in constant time. specs/Operations.antt and
// Folds.antt have the answers, specs/Marks.antt their marks, specs/Sets.antt the operations on sets, and specs/Cases.antt which answer is
// given where. The theorems between them are in proofs/Dilations, Erosions, Openings and Closings, and the laws of demand 3 in
// proofs/Laws.
#![tactic(auto)]

ghost use Rattle.std.specs.Prelude.{◌≡◌};
ghost use Rattle.octagon.specs.Answers.{outcome};
ghost use Rattle.morphology.specs.Marks.{spread_outcome};
ghost use Rattle.morphology.specs.Operations as operations;
ghost use Rattle.morphology.specs.Folds.{closed};

mod bounds;
pub mod folds;
mod marks;
mod rows;

use bounds::{differences, fit, place, sums};
use octagon::{NormalForm, Octagon, Refusal};
use rows::are_opposed;

// What a call that spreads hands back: an octagon that has exactly the cells of the set definition; or the smallest octagon that holds them,
// where opposed diagonal rows were dilated, and of a closing just them.
#[derive(Clone, Copy, Debug, PartialEq, Eq, Hash)]
pub enum Spread {
    Exact(Octagon),
    Filled(Octagon),
}

// The dilation of normal forms: their sums, filled where the two are opposed rows.
fn dilate_forms(a: NormalForm, b: NormalForm) -> Result<Spread, Refusal>
    ensures { spread_outcome result ≡ operations.dilation_of_forms a.bounds b.bounds }
{
    let spread = place(sums(a.bounds, b.bounds))?;
    Ok(Spread::new(spread, are_opposed(a.bounds, b.bounds)))
}

// Every sum of a cell of the plot and a cell of the element (document 01's spread); filled where the two are opposed rows.
#[tactic(auto, unfolding(crate::specs::Operations::dilation))]
pub fn dilate(plot: Octagon, element: Octagon) -> Result<Spread, Refusal>
    ensures { spread_outcome result ≡ operations.dilation plot element }
{
    let a = NormalForm::of(plot)?;
    let b = NormalForm::of(element)?;
    dilate_forms(a, b)
}

// The positions at which the whole element stands inside the plot (document 01's trim).
#[tactic(auto, unfolding(crate::specs::Operations::erosion))]
pub fn erode(plot: Octagon, element: Octagon) -> Result<Octagon, Refusal>
    ensures { outcome result ≡ operations.erosion plot element }
{
    let a = NormalForm::of(plot)?;
    let b = NormalForm::of(element)?;
    Ok(fit(differences(a.bounds, b.bounds))?.bounds)
}

// The erosion, and where that is accepted the dilation of what it left, with its mark.
#[tactic(auto, unfolding(crate::specs::Operations::opened, crate::specs::Operations::erosion, crate::specs::Operations::dilation))]
pub fn opening(plot: Octagon, element: Octagon) -> Result<Spread, Refusal>
    ensures { spread_outcome result ≡ operations.opened plot element }
{
    let a = NormalForm::of(plot)?;
    let b = NormalForm::of(element)?;
    let left = fit(differences(a.bounds, b.bounds))?;
    dilate_forms(left, b)
}

// The dilation, and where that is accepted the erosion of what it gave, with the dilation's mark. Its cells are exact whatever the mark.
#[tactic(auto, unfolding(crate::specs::Folds::closed, crate::specs::Operations::dilation, crate::specs::Operations::erosion))]
pub fn closing(plot: Octagon, element: Octagon) -> Result<Spread, Refusal>
    ensures { spread_outcome result ≡ closed plot element }
{
    let a = NormalForm::of(plot)?;
    let b = NormalForm::of(element)?;
    let spread = dilate_forms(a, b)?;
    let closed = fit(differences(spread.octagon(), b.bounds))?;
    Ok(Spread::new(closed.bounds, spread.is_filled()))
}
