// Answers of the library beside the enumerated cells.
use crate::answered::Answered;
use crate::bounds::Bounds;
use crate::discs::Disc;
use clearance::Tree;
use octagon::Refusal;
use std::io;

// The greatest radius that document 02 allows.
const RADIUS_LIMIT: u32 = 255;

fn verdict(agrees: bool) -> &'static str {
    if agrees { "agree" } else { "disagree" }
}

// A tree, the library's answer, what the radius or the cells say, and whether the two agree.
pub fn tell(rt: &impl Print, tree: Tree) -> io::Result<()> {
    let Tree { x, y, radius } = tree;
    let given = clearance::around(tree).map(Bounds::from);
    print!(rt; "tree {x} {y} radius {radius}:{}; by ", Answered(given))?;
    if radius > RADIUS_LIMIT {
        let expected = Err(Refusal::TooWide);
        println!(rt;
            "the radius{}: {}",
            Answered(expected),
            verdict(given == expected)
        )
    } else {
        let disc = Disc::about(tree);
        let expected = disc.expected();
        println!(rt;
            "cells{}, cells {}: {}",
            Answered(expected),
            disc.cells,
            verdict(given == expected)
        )
    }
}
