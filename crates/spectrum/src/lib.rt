// How finely a plot breaks up (document 02's U9): the pattern spectrum of source document 004, in a lent list.
//
// Entry n is the number of cells that are lost between the plot opened by n folds of the frame and by n + 1: n trims and then n spreads,
// since the frame folded n times may leave the map though nothing is wrong. specs/Spectra.antt has the answer, specs/Walks.antt the walk,
// specs/Cases.antt what both mean in sets; the theorems between them are in proofs/Cases, Ends, Losses, Lists and MovedPlots.
#![tactic(auto)]

ghost use Rattle.std.specs.Prelude.{◌≡◌, ◌≤◌, length};
ghost use Rattle.octagon.specs.Forms.{form_outcome};
ghost use Rattle.octagon.specs.Outcome.{accepted};
ghost use Rattle.cell_count.specs.Area as counts;
ghost use Rattle.morphology.specs.Folds.{fold_limit};
ghost use Rattle.records.specs.Parts.{splice};
ghost use Rattle.spectrum.specs.Walks as walks;
ghost use Rattle.spectrum.specs.Spectra as spec;
ghost use Rattle.spectrum.specs.Answers.{outcome, ended, ending, ending_of};

use cell_count::area;
use morphology::folds::open_forms_n;
use octagon::{NormalForm, Octagon, Refusal};

// How a spectrum ended, with the number of trims that were made, which is the number of entries written: finished, where nothing is left;
// or spent, where the list is full and a further entry was due.
#[derive(Clone, Copy, Debug, PartialEq, Eq, Hash)]
pub enum Spectrum {
    Finished(usize),
    Spent(usize),
}

// Whether the cell (0, 0) is within the bounds. One test for each, as in the definition: with `all` over an array of the eight the check
// finds no proof by itself.
#[tactic(auto, unfolding(cell_count::specs::Count::inside))]
fn has_origin(b: Octagon) -> bool
    ensures { result ≡ spec.has_origin b }
{
    (0 <= b.c0)
        & (0 <= b.c1)
        & (0 <= b.c2)
        & (0 <= b.c3)
        & (0 <= b.c4)
        & (0 <= b.c5)
        & (0 <= b.c6)
        & (0 <= b.c7)
}

// The frame's normal form. Refuses as `normalise` does, then a frame that lacks the cell (0, 0), then one that has no other.
#[tactic(auto, unfolding(crate::specs::Spectra::frame_form))]
fn frame_form(frame: Octagon) -> Result<NormalForm, Refusal>
    ensures { form_outcome result ≡ spec.frame_form frame }
{
    let b = NormalForm::of(frame)?;
    if !has_origin(b.bounds) {
        return Err(Refusal::NoOrigin);
    }
    if area(b) == 1 {
        return Err(Refusal::NoOtherCell);
    }
    Ok(b)
}

// The cells of a plot that n folds of a frame open; 0 where nothing is left.
fn open_cells(a: NormalForm, b: NormalForm, n: u32) -> u64
    requires { n ≤ fold_limit }
    ensures { result ≡ spec.open_cells a.bounds b.bounds n }
{
    open_forms_n(a, b, n).map_or(0, area)
}

// Writes what is lost from each number of folds to the next, until nothing is left or the list is full.
fn walk(a: NormalForm, b: NormalForm, list: &mut [u64]) -> Spectrum
    requires { spec.frame_form b.bounds ≡ accepted b.bounds }
    ensures result_value { ending_of result ≡ ending (walks.walk (spec.open_cells a.bounds b.bounds) (length list.old) 0 (counts.area a.bounds)) }
    ensures list_after { list.new ≡ splice list.old 0 (walks.walk (spec.open_cells a.bounds b.bounds) (length list.old) 0 (counts.area a.bounds)).entries }
{
    let mut still = area(a);
    for (n, lost) in list.iter_mut().enumerate() {
        let folds = n + 1;
        let open = open_cells(a, b, folds as u32);
        *lost = still - open;
        if open == 0 {
            return Spectrum::Finished(folds);
        }
        still = open;
    }
    Spectrum::Spent(list.len())
}

// The spectrum of the plot by the frame, from the first place of the list on; places past the last entry keep their values. Refuses the
// plot as `normalise` does, then the frame so, then a frame without the cell (0, 0), then one that has no other cell.
#[tactic(auto, unfolding(crate::specs::Spectra::spectrum, crate::specs::Spectra::after_spectrum))]
pub fn pattern_spectrum(
    plot: Octagon,
    frame: Octagon,
    list: &mut [u64],
) -> Result<Spectrum, Refusal>
    ensures result_value { outcome result ≡ ended (spec.spectrum plot frame (length list.old)) }
    ensures list_after { list.new ≡ spec.after_spectrum plot frame list.old }
{
    let a = NormalForm::of(plot)?;
    let b = frame_form(frame)?;
    Ok(walk(a, b, list))
}
