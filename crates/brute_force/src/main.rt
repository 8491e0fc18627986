// Compares the library with sets of cells that are enumerated one by one, on small octagons anywhere on the map and past its edge.
//
// What is expected comes from document 01's eight inequalities and steps, its rule for the counts of a split, and the set definitions 2.12
// to 2.17 of source document 002 alone; no call of the library is made for it. A spread is expected to be filled where no octagon has just
// the cells of its set, but the second of two to be exact where the first made a fold. As many folds as the limit has are not
// enumerated (folds.rt). tests/brute_force.py works the output out by itself.
#![tactic(auto)]

mod answers;
mod bench;
mod both;
mod bounds;
mod calls;
mod cells;
mod draws;
mod folds;
mod numbers;
mod operands;
mod operations;
mod outlines;
mod pieces;
mod places;
mod rule;
mod sets;
mod splits;
mod tally;
mod two_calls;

const PAIRS: u32 = 2500;

fn main(rt: HostRuntime) {
    let mut bench = bench::Bench::new(rt);
    for pair in 0..PAIRS {
        bench.compare(pair);
    }
    bench.tally.print();
}
