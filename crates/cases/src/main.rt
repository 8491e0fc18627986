// The squared-paper cases that are run, the README's example, and `normalise` at extreme bounds, each beside a set of cells that is
// enumerated here; folds across the map; splits that were worked out by hand; and the library's constants. The starred cases are proved in
// specs/Starred.antt.
//
// What is expected comes from the eight inequalities, the steps and the set definitions alone. A line has the answer, with its mark where
// the call has one, then what the cells say, then whether the two agree. Octagons too large to enumerate and folds across the map have the
// answer alone; a split has the answer, and whether it is what was worked out (splits.rt). tests/cases.py works the lines out on its own.
#![tactic(auto)]

mod beside;
mod bounds;
mod far_folds;
mod numbers;
mod operands;
mod sets;
mod splits;
mod squared_paper;
mod told;

use beside::{tell, tell_spread};
use cell_count::count_cells;
use morphology::{erode, opening};
use octagon::{Octagon, Refusal, normalise};
use operands::{ENUMERATED_EXTREMES, EXTREMES, FRAME, PLOT};
use outline::{Outline, to_octagon};
use sets::Set;
use std::io;
use told::{Answered, Cells, Counted, verdict};

// The price list's figure: the cells of a plot that a frame can open, or where the opening is filled those of the smallest octagon that
// holds them; or a refusal.
fn figure(surveyed: Outline, frame: Octagon) -> Result<u64, Refusal> {
    let plot = to_octagon(surveyed)?;
    let opened = opening(plot, frame)?;
    count_cells(opened.octagon())
}

fn tell_figure(rt: &impl Print, opened: Set) -> io::Result<()> {
    let surveyed = Outline::with_sides(0, 0, [0, 2, 0, 2, 0, 2, 0, 2]);
    let given = Cells(figure(surveyed, FRAME.octagon()));
    let expected = Cells(Ok(opened.count()));
    println!(rt;
        "the price list's figure{given}: {}",
        verdict(given == expected)
    )
}

// The worked example of the README: a plot, a frame of 2 by 2 cells, its positions, the ground that it opens, and the figure.
fn worked_example(rt: &impl Print) -> io::Result<()> {
    let (plot, frame) = (PLOT.octagon(), FRAME.octagon());
    let plot_cells = Set::within(PLOT, -2, 0);
    let frame_cells = Set::within(FRAME, 0, 0);
    let fitting = plot_cells.positions(frame_cells);
    let opened = fitting.sums(frame_cells);
    tell(rt, "plot", normalise(plot), plot_cells, Refusal::NoCell)?;
    tell(
        rt,
        "positions of the frame",
        erode(plot, frame),
        fitting,
        Refusal::NothingLeft,
    )?;
    tell_spread(rt, "ground that it opens", opening(plot, frame), opened)?;
    tell_figure(rt, opened)
}

fn extremes(rt: &impl Print) -> io::Result<()> {
    for bounds in EXTREMES {
        let given = normalise(bounds.octagon());
        println!(rt; "normalise{bounds}:{}", Answered(given.map(Counted::from)))?;
    }
    Ok(())
}

fn enumerated_extremes(rt: &impl Print) -> io::Result<()> {
    for (bounds, corner) in ENUMERATED_EXTREMES {
        let given = normalise(bounds.octagon());
        let set = Set::within(bounds, corner.x, corner.y);
        let asked = format_args!("normalise{bounds}");
        tell(rt, asked, given, set, Refusal::NoCell)?;
    }
    Ok(())
}

fn all(rt: &impl Print) -> io::Result<()> {
    worked_example(rt)?;
    squared_paper::tell(rt)?;
    far_folds::tell(rt)?;
    splits::tell(rt)?;
    extremes(rt)?;
    enumerated_extremes(rt)?;
    numbers::tell(rt)
}

// Where a line cannot be written, nothing more is.
fn main(rt: HostRuntime) {
    let _ = all(&rt);
}
