// The spectrum of a plot by a frame, in the first places of a list.
use crate::print::{List, tell};
use crate::samples::SAMPLES;
use koxirmeta_c::spectra::kx_spectrum;
use std::io;

// A plot of 405 cells, and a frame of 18 that has the cell (0, 0), with a ninth number after the bounds of each. With two bounds of
// either exchanged, the answer is another.
const BROAD: [i32; 9] = [35, 47, 18, 11, -7, -17, -3, 28, 9];

const SLANT: [i32; 9] = [3, 2, 0, 5, 6, 7, 1, 4, 9];

// A frame with slack bounds; the cells (0, 0) and (1, -1), a diagonal row; the cell (0, 0) alone.
const LOOSE: [i32; 8] = [1, 8, 2, 6, 3, 7, 0, 9];

const ROW: [i32; 8] = [1, 2, 1, 0, 0, 0, 0, 0];

const ORIGIN: [i32; 8] = [0; 8];

// A block of 3,700,005 columns and 3,300,013 rows, and one of 2,000,004 and 3,000,002, which stands in it once but not twice.
const BLOCK: [i32; 8] = [
    1700005, 3500008, 1800003, 3400010, 1600007, 3500008, 1900001, 3600006,
];

const PART: [i32; 8] = [
    1100003, 3059997, 1959994, 3859992, 1899998, 1940007, 40009, 1140012,
];

// The call on the first places of a list of six, so many: all its places, the trims and the ending.
fn spectrum(rt: &impl Print, plot: &[i32], frame: &[i32], room: usize) -> io::Result<()> {
    let mut list = [301, 302, 303, 304, 305, 306];
    let lent = room.min(list.len());
    let mut trims = 101;
    let mut ending = 201;
    let answer = kx_spectrum(plot, frame, &mut list[..lent], &mut trims, &mut ending);
    tell(
        rt,
        "spectrum",
        answer,
        format_args!("{} {trims} {ending}", List(&list)),
    )
}

// From no place to two more than there are entries.
fn every_length(rt: &impl Print) -> io::Result<()> {
    for room in 0..=6 {
        spectrum(rt, &BROAD[..8], &SLANT[..8], room)?;
    }
    Ok(())
}

// More places than there are entries, just as many, and one fewer: with slack bounds, and where an opening is filled.
fn about_the_end(rt: &impl Print) -> io::Result<()> {
    for room in [6, 5, 4] {
        spectrum(rt, &SAMPLES[2].bounds, &LOOSE, room)?;
    }
    for room in [6, 2, 1] {
        spectrum(rt, &SAMPLES[13].bounds, &ROW, room)?;
    }
    Ok(())
}

// One fold loses nothing, and the second more cells than 32 bits count.
fn large_entry(rt: &impl Print) -> io::Result<()> {
    spectrum(rt, &BLOCK, &PART, 1)?;
    spectrum(rt, &BLOCK, &PART, 6)
}

// With six places and with none.
fn refused(rt: &impl Print, plot: &[i32; 8], frame: &[i32; 8]) -> io::Result<()> {
    spectrum(rt, plot, frame, 6)?;
    spectrum(rt, plot, frame, 0)
}

// A plot that has no cell, and one off the map, each by the other as a frame; then a plot by such frames, by frames without the cell
// (0, 0), the second of one cell, and by that cell alone.
fn refusals(rt: &impl Print) -> io::Result<()> {
    let plot = &SAMPLES[0].bounds;
    let none = &SAMPLES[3].bounds;
    let past = &SAMPLES[4].bounds;
    refused(rt, none, past)?;
    refused(rt, past, none)?;
    refused(rt, plot, none)?;
    refused(rt, plot, past)?;
    refused(rt, plot, &SAMPLES[1].bounds)?;
    refused(rt, plot, &SAMPLES[6].bounds)?;
    refused(rt, plot, &ORIGIN)
}

// Seven, nine and no bounds of the plot and of the frame; then seven beside an operand that would be refused.
fn misfits(rt: &impl Print) -> io::Result<()> {
    let broad = &BROAD[..8];
    let slant = &SLANT[..8];
    spectrum(rt, &BROAD[..7], slant, 6)?;
    spectrum(rt, broad, &SLANT[..7], 6)?;
    spectrum(rt, &BROAD, slant, 6)?;
    spectrum(rt, broad, &SLANT, 6)?;
    spectrum(rt, &[], slant, 6)?;
    spectrum(rt, broad, &[], 6)?;
    spectrum(rt, &BROAD[..7], &ORIGIN, 6)?;
    spectrum(rt, &SAMPLES[3].bounds, &SLANT[..7], 6)
}

pub fn spectra(rt: &impl Print) -> io::Result<()> {
    every_length(rt)?;
    about_the_end(rt)?;
    large_entry(rt)?;
    refusals(rt)?;
    misfits(rt)
}
