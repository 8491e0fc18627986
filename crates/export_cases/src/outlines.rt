// The calls on outlines, places and splits.
use crate::octagons::count;
use crate::print::{List, Metres, tell};
use koxirmeta_c::outlines::{kx_to_octagon, kx_to_outline, kx_vertex_place};
use koxirmeta_c::splits::kx_decompose;
use std::io;

fn to_outline(
    rt: &impl Print,
    plot: &[i32],
    start: &mut [i32],
    sides: &mut [u32],
) -> io::Result<()> {
    let answer = kx_to_outline(plot, start, sides);
    tell(
        rt,
        "to_outline",
        answer,
        format_args!("{}{}", List(start), List(sides)),
    )
}

fn decompose(
    rt: &impl Print,
    plot: &[i32],
    start: &mut [i32],
    counts: &mut [u32],
) -> io::Result<()> {
    let answer = kx_decompose(plot, start, counts);
    tell(
        rt,
        "decompose",
        answer,
        format_args!("{}{}", List(start), List(counts)),
    )
}

fn to_octagon(rt: &impl Print, start: &[i32], sides: &[u32], out: &mut [i32]) -> io::Result<()> {
    let answer = kx_to_octagon(start, sides, out);
    tell(rt, "to_octagon", answer, List(out))
}

fn vertex_place(rt: &impl Print, plot: &[i32], k: u32, place: &mut [f64]) -> io::Result<()> {
    let answer = kx_vertex_place(plot, k, place);
    tell(rt, "vertex_place", answer, Metres(place))
}

// The outline of an octagon, and the octagon of that; then slices of wrong lengths: a start of eight numbers, and eight counts.
pub fn outline(rt: &impl Print, plot: &[i32; 8]) -> io::Result<()> {
    let mut start = [101, 102];
    let mut sides = [201, 202, 203, 204, 205, 206, 207, 208];
    let mut out = [301, 302, 303, 304, 305, 306, 307, 308];
    to_outline(rt, plot, &mut start, &mut sides)?;
    to_octagon(rt, &start, &sides, &mut out)?;
    to_octagon(rt, plot, &sides, &mut out)?;
    decompose(rt, plot, &mut start, &mut sides)
}

// The count and the split of an octagon; then thirteen sides.
pub fn split(rt: &impl Print, plot: &[i32; 8]) -> io::Result<()> {
    let mut start = [101, 102];
    let mut counts = [201; 13];
    count(rt, plot)?;
    decompose(rt, plot, &mut start, &mut counts)?;
    to_outline(rt, plot, &mut start, &mut counts)
}

// A corner in metres; then a place of three numbers.
pub fn place(rt: &impl Print, plot: &[i32; 8], corner: u32) -> io::Result<()> {
    let mut place = [0.5, -0.75];
    let mut three = [0.5, -0.75, 1.25];
    vertex_place(rt, plot, corner, &mut place)?;
    vertex_place(rt, plot, corner, &mut three)
}
