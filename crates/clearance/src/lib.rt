// Tree clearances: the smallest octagon that holds every cell at a distance from a tree or less.
//
// specs/Disc.antt has those cells by their squares, specs/Clearing.antt what `around` answers, and specs/Cases.antt the same in words;
// proofs/Discs.antt and Cases.antt have the theorems.
#![tactic(auto)]

ghost use Rattle.std.specs.Prelude.{◌≡◌};
ghost use Rattle.octagon.specs.Answers.{outcome};
ghost use Rattle.clearance.specs.Clearing.{cleared};

use disc::Axes;
use octagon::{Octagon, Refusal};
use slants::slant_reach;

mod disc;
mod slants;
mod table;

// Document 02's tree: a centre cell, and a radius in whole cells. Every value is allowed.
#[derive(Clone, Copy, Debug, PartialEq, Eq, Hash)]
pub struct Tree {
    pub x: i32,
    pub y: i32,
    pub radius: u32,
}

// The greatest radius that is answered.
pub const RADIUS_LIMIT: u32 = 255;

// The smallest octagon that holds every cell at the tree's radius from its centre or less. Refuses a radius above the limit, then a centre
// off the map, then an octagon that leaves the map: the centre is a cell of it, so one test decides both.
#[tactic(auto, using(crate::proofs::Cases::above_limit_refused))]
pub fn around(tree: Tree) -> Result<Octagon, Refusal>
    ensures { outcome result ≡ cleared tree }
{
    if tree.radius > RADIUS_LIMIT {
        return Err(Refusal::TooWide);
    }
    let axes = Axes::about(tree);
    if !axes.are_on_map() {
        return Err(Refusal::OffMap);
    }
    Ok(axes.with_slants(tree, slant_reach(tree.radius)))
}
