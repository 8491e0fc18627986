// The pattern spectrum of a plot by a frame, in a lent list (document 02's U9).
ghost use Rattle.std.specs.Prelude.{◌≡◌};
ghost use Rattle.spectrum.specs.Answers.{outcome};
ghost use Rattle.koxirmeta_c.specs.Calls as calls;
ghost use Rattle.koxirmeta_c.specs.Spectra as spectra;

use crate::octagons::octagon_in;
use crate::{ACCEPTED, WRONG_LENGTH};
use octagon::Refusal;
use spectrum::{Spectrum, pattern_spectrum};

// How a spectrum ended.
const SPENT: u32 = 0;

const FINISHED: u32 = 1;

// Hands over how many trims were made, and how it ended.
#[tactic(auto, unfolding(crate::specs::Calls::status))]
fn give_ending(answer: Result<Spectrum, Refusal>, trims: &mut usize, ending: &mut u32) -> u32
    ensures { calls.Hands (outcome answer) spectra.ending_parts (trims.old, ending.old) (trims.new, ending.new) result }
{
    let (n, end) = match answer {
        Ok(Spectrum::Finished(n)) => (n, FINISHED),
        Ok(Spectrum::Spent(n)) => (n, SPENT),
        Err(refusal) => return refusal.number(),
    };
    *trims = n;
    *ending = end;
    ACCEPTED
}

// The cells that are lost from each number of folds of the frame to the next, from the first place of the list on.
pub fn kx_spectrum(
    plot: &[i32],
    frame: &[i32],
    list: &mut [u64],
    trims: &mut usize,
    ending: &mut u32,
) -> u32
    ensures { calls.Hands (spectra.breaking_up plot.now frame.now list.old) spectra.ending_parts (trims.old, ending.old) (trims.new, ending.new) result × (list.new ≡ spectra.after_breaking_up plot.now frame.now list.old) }
{
    if (plot.len() == 8) & (frame.len() == 8) {
        return give_ending(
            pattern_spectrum(octagon_in(plot), octagon_in(frame), list),
            trims,
            ending,
        );
    }
    WRONG_LENGTH
}
