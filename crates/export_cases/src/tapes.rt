// The call on a surveyor's tape: metres, east and north in turn.
use crate::print::{List, Metres, tell};
use koxirmeta_c::tapes::kx_enclose;
use std::io;

const NAN: f64 = f64::NAN;

const INFINITY: f64 = f64::INFINITY;

fn enclose_to(rt: &impl Print, tape: &[f64], out: &mut [i32]) -> io::Result<()> {
    let answer = kx_enclose(tape, out);
    tell(rt, "enclose", answer, List(out))?;
    // In a print of its own: one format over slices of several lifetimes gets no proof.
    print!(rt; "{}", Metres(tape))
}

fn enclose(rt: &impl Print, tape: &[f64]) -> io::Result<()> {
    let mut out = [101, 102, 103, 104, 105, 106, 107, 108];
    enclose_to(rt, tape, &mut out)
}

// A survey of nine points, each bound reached by another point, and its first three points.
fn surveys(rt: &impl Print) -> io::Result<()> {
    let survey = [
        -7.31, -12.85, 3.44, -14.2, 10.375, -11.06, 12.9, -5.625, 11.7, 1.52, 5.08, 6.125, -1.96,
        5.9, -8.4, 0.77, -9.875, -6.3,
    ];
    enclose(rt, &survey)?;
    enclose(rt, &survey[..6])
}

// Points on the edge of a cell, which is in it, and the next numbers below such edges; noughts; the corners of the map.
fn edges(rt: &impl Print) -> io::Result<()> {
    let points = [
        [0.125, -0.125],
        [0.375, -0.375],
        [0.12499999999999999, -0.12500000000000003],
        [0.37499999999999994, -0.37500000000000006],
        [-0.0, 0.0],
        [500000.12499999994, -500000.125],
        [-500000.125, 500000.12499999994],
    ];
    for point in &points {
        enclose(rt, point)?;
    }
    Ok(())
}

// No point, and half a point more than none, one and two: before any look at the numbers.
fn lengths(rt: &impl Print) -> io::Result<()> {
    let tape = [500500.5, NAN, 1.3, INFINITY, 600000.75];
    enclose(rt, &[])?;
    enclose(rt, &tape[..1])?;
    enclose(rt, &tape[..3])?;
    enclose(rt, &tape)
}

// A coordinate that is not finite: east or north, in the first point or the last, beside a coordinate off the map, and before a point off it.
fn not_finite(rt: &impl Print) -> io::Result<()> {
    enclose(rt, &[NAN, 2.6])?;
    enclose(rt, &[3.1, INFINITY])?;
    enclose(rt, &[-INFINITY, -2.2])?;
    enclose(rt, &[1.4, 2.7, -3.3, 4.6, 5.8, NAN])?;
    enclose(rt, &[500001.5, NAN])?;
    enclose(rt, &[INFINITY, -500002.25])?;
    enclose(rt, &[2.9, -INFINITY, 500003.75, 1.1])
}

// A point off the map: on each side by the least, by far, in the last point, and before one that is not finite.
fn off_map(rt: &impl Print) -> io::Result<()> {
    enclose(rt, &[500000.125, 1.7])?;
    enclose(rt, &[-2.8, 500000.125])?;
    enclose(rt, &[-500000.12500000006, 3.9])?;
    enclose(rt, &[4.2, -500000.12500000006])?;
    enclose(rt, &[1.0e300, -2.0e300])?;
    enclose(rt, &[5.3, -6.4, 7.6, -900000.0])?;
    enclose(rt, &[-500005.5, 6.6, NAN, 7.7])
}

// Results of seven and of nine numbers, for a survey, for no point and for half a point.
fn misfits(rt: &impl Print) -> io::Result<()> {
    let tape = [1.9, -2.3, 4.7];
    let mut seven = [101, 102, 103, 104, 105, 106, 107];
    let mut nine = [101, 102, 103, 104, 105, 106, 107, 108, 109];
    enclose_to(rt, &tape[..2], &mut seven)?;
    enclose_to(rt, &tape[..2], &mut nine)?;
    enclose_to(rt, &[], &mut seven)?;
    enclose_to(rt, &tape, &mut nine)
}

pub fn tapes(rt: &impl Print) -> io::Result<()> {
    surveys(rt)?;
    edges(rt)?;
    lengths(rt)?;
    not_finite(rt)?;
    off_map(rt)?;
    misfits(rt)
}
