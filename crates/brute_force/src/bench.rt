// The bench: the draws, the tally, and what one pair leaves for the next.
use crate::bounds::Bounds;
use crate::cells::ORIGIN;
use crate::draws::Draws;
use crate::operands::{Operand, Pair};
use crate::pieces::Piece;
use crate::tally::Tally;
use crate::{both, operands, operations, outlines, splits};

#[derive(Drop)]
pub struct Bench {
    pub tally: Tally,
    draws: Draws,
    // The octagon with which the next element is spread.
    third: Operand,
}

impl Bench {
    // The third octagon has no cell for the first pair.
    pub fn new(rt: HostRuntime) -> Bench {
        let no_cell = Bounds([i64::from(i32::MIN); 8]);
        Bench {
            tally: Tally::new(rt),
            draws: Draws::new(),
            third: Operand::new(no_cell, ORIGIN),
        }
    }

    // Every call on one pair, and the plot opened by the element spread with the third octagon.
    pub fn compare(&mut self, number: u32) {
        let pair = self.draws.pair();
        let tally = &mut self.tally;
        tally.pair = number;
        operands::compare(tally, &pair.plot);
        splits::compare(tally, &pair.plot);
        outlines::compare_back(tally, &pair.plot);
        operands::compare(tally, &pair.element);
        let opened = operations::compare_all(tally, &pair);
        both::compare(tally, &pair, &self.third, &opened);
        self.third = third_after(&pair, number);
    }
}

// The third octagon of the next pair: this element or, so that there are opposed rows, K2 or K4 at (0, 0).
fn third_after(pair: &Pair, number: u32) -> Operand {
    match number % 4 {
        0 => Operand::new(splits::bounds_of(Piece::K2), ORIGIN),
        2 => Operand::new(splits::bounds_of(Piece::K4), ORIGIN),
        _ => pair.element,
    }
}
