// Every exported function, called on slices of the right and of wrong lengths, accepted and refused: the number that it answers, and the
// memory that it was lent, as it is afterwards. tests/exports.py works the expected output out on its own.
#![tactic(auto)]

use samples::SAMPLES;
use std::io;

mod clearances;
mod conversions;
mod joins;
mod octagons;
mod outlines;
mod plots;
mod print;
mod samples;
mod sheets;
mod spectra;
mod tapes;

// Each sample, in each call that takes an octagon.
fn each_sample(rt: &impl Print) -> io::Result<()> {
    for (k, sample) in SAMPLES.iter().enumerate() {
        octagons::operations(rt, sample)?;
        outlines::outline(rt, &sample.bounds)?;
        outlines::split(rt, &sample.bounds)?;
        outlines::place(rt, &sample.bounds, (k % 9) as u32)?;
    }
    Ok(())
}

fn all(rt: &impl Print) -> io::Result<()> {
    each_sample(rt)?;
    octagons::wide(rt)?;
    octagons::misfits(rt)?;
    spectra::spectra(rt)?;
    tapes::tapes(rt)?;
    clearances::clearances(rt)?;
    plots::plots(rt)?;
    joins::joins(rt)?;
    conversions::conversions(rt)
}

// Where a line cannot be written, nothing more is.
fn main(rt: HostRuntime) {
    let _ = all(&rt);
}
