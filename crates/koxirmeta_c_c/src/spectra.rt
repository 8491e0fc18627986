// The pattern spectrum of a plot by a frame, in a lent list.
ghost use Rattle.std.specs.Prelude.{◌≡◌};
ghost use Rattle.koxirmeta_c.specs.Calls as calls;
ghost use Rattle.koxirmeta_c.specs.Spectra as spectra;

// The cells that are lost from each number of folds of the frame to the next, from the first place of the list on.
#[unsafe(no_mangle)]
pub extern "C" fn kx_spectrum(
    plot: &[i32],
    frame: &[i32],
    list: &mut [u64],
    trims: &mut usize,
    ending: &mut u32,
) -> u32
    ensures { calls.Hands (spectra.breaking_up plot.now frame.now list.old) spectra.ending_parts (trims.old, ending.old) (trims.new, ending.new) result × (list.new ≡ spectra.after_breaking_up plot.now frame.now list.old) }
{
    koxirmeta_c::spectra::kx_spectrum(plot, frame, list, trims, ending)
}
