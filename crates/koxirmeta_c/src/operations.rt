// Normal form, cell count, dilation, erosion, opening, closing and the n-fold forms.
// Each call is a function of its own, since C calls it by its name.
ghost use Rattle.octagon.specs.NormalForm.{normalised};
ghost use Rattle.morphology.specs.Operations.{dilation, erosion, opened};
ghost use Rattle.morphology.specs.Folds.{closed, dilation_n, erosion_n};
ghost use Rattle.koxirmeta_c.specs.Calls as calls;

use crate::WRONG_LENGTH;
use crate::giving::give_value;
use crate::octagons::{are_eights, give, give_marked, octagon_in};
use cell_count::count_cells;
use morphology::folds::{dilate_n, erode_n};
use morphology::{closing, dilate, erode, opening};
use octagon::normalise;

// The normal form of eight bounds.
pub fn kx_normalise(bounds: &[i32], out: &mut [i32]) -> u32
    ensures { calls.Hands (calls.on_one normalised bounds.now out.old) calls.bounds_of out.old out.new result }
{
    give(normalise(octagon_in(bounds)), bounds.len() == 8, out)
}

// The number of cells within eight bounds.
pub fn kx_count(bounds: &[i32], cells: &mut u64) -> u32
    ensures { calls.Hands (calls.counted bounds.now) (λ n. n) cells.old cells.new result }
{
    give_value(count_cells(octagon_in(bounds)), bounds.len() == 8, cells)
}

// The dilation of a plot by an element (document 01's spread), and its mark.
#[tactic(auto, unfolding(crate::specs::Calls::fitted, crate::specs::Calls::status))]
pub fn kx_dilate(plot: &[i32], element: &[i32], out: &mut [i32], mark: &mut u32) -> u32
    ensures { calls.Hands (calls.on_two dilation plot.now element.now out.old) calls.marked_parts (out.old, mark.old) (out.new, mark.new) result }
{
    if !are_eights(plot, element, out) {
        return WRONG_LENGTH;
    }
    give_marked(dilate(octagon_in(plot), octagon_in(element)), out, mark)
}

// The erosion of a plot by an element (document 01's trim).
pub fn kx_erode(plot: &[i32], element: &[i32], out: &mut [i32]) -> u32
    ensures { calls.Hands (calls.on_two erosion plot.now element.now out.old) calls.bounds_of out.old out.new result }
{
    give(
        erode(octagon_in(plot), octagon_in(element)),
        (plot.len() == 8) & (element.len() == 8),
        out,
    )
}

// The opening of a plot by an element, and its mark.
#[tactic(auto, unfolding(crate::specs::Calls::fitted, crate::specs::Calls::status))]
pub fn kx_opening(plot: &[i32], element: &[i32], out: &mut [i32], mark: &mut u32) -> u32
    ensures { calls.Hands (calls.on_two opened plot.now element.now out.old) calls.marked_parts (out.old, mark.old) (out.new, mark.new) result }
{
    if !are_eights(plot, element, out) {
        return WRONG_LENGTH;
    }
    give_marked(opening(octagon_in(plot), octagon_in(element)), out, mark)
}

// The closing of a plot by an element, and its mark.
#[tactic(auto, unfolding(crate::specs::Calls::fitted, crate::specs::Calls::status))]
pub fn kx_closing(plot: &[i32], element: &[i32], out: &mut [i32], mark: &mut u32) -> u32
    ensures { calls.Hands (calls.on_two closed plot.now element.now out.old) calls.marked_parts (out.old, mark.old) (out.new, mark.new) result }
{
    if !are_eights(plot, element, out) {
        return WRONG_LENGTH;
    }
    give_marked(closing(octagon_in(plot), octagon_in(element)), out, mark)
}

// The n-fold dilation of a plot by an element, and its mark.
#[tactic(auto, unfolding(crate::specs::Calls::fitted, crate::specs::Calls::status))]
pub fn kx_dilate_n(plot: &[i32], element: &[i32], n: u32, out: &mut [i32], mark: &mut u32) -> u32
    ensures { calls.Hands (calls.on_two (λ p f. dilation_n p f n) plot.now element.now out.old) calls.marked_parts (out.old, mark.old) (out.new, mark.new) result }
{
    if !are_eights(plot, element, out) {
        return WRONG_LENGTH;
    }
    give_marked(
        dilate_n(octagon_in(plot), octagon_in(element), n),
        out,
        mark,
    )
}

// The n-fold erosion of a plot by an element.
pub fn kx_erode_n(plot: &[i32], element: &[i32], n: u32, out: &mut [i32]) -> u32
    ensures { calls.Hands (calls.on_two (λ p f. erosion_n p f n) plot.now element.now out.old) calls.bounds_of out.old out.new result }
{
    give(
        erode_n(octagon_in(plot), octagon_in(element), n),
        (plot.len() == 8) & (element.len() == 8),
        out,
    )
}
