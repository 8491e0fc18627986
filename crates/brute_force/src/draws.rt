// Octagons of many shapes and places, from a linear congruential sequence.
//
// A plot is at most 8 cells from its window's middle, and an element at most 4: four folds stay in the window.
ghost use Rattle.std.specs.Prelude.{◌<◌};

use crate::bounds::Bounds;
use crate::cells::Cell;
use crate::operands::{Operand, Pair};
use crate::outlines::Outline;
use crate::pieces::{PIECES, Piece, Pieces};

const MODULUS: u32 = 2147483648;

#[derive(Drop)]
pub struct Draws {
    state: u32,
}

// A coordinate of a window's middle: some steps from the map's middle line, or near the map's edge.
fn coordinate(draw: u8) -> i32 {
    let n = i32::from(draw / 16);
    match draw % 16 {
        0 => 1_999_992 + n,
        1 => -1_999_992 - n,
        _ => n - 7,
    }
}

// A piece: K2 or K4 in one draw of four, so that there are diagonal rows.
fn piece(draw: u8) -> Piece {
    let n = usize::from(draw / 4 % 13);
    match draw % 4 {
        0 if n % 2 == 0 => Piece::K2,
        0 => Piece::K4,
        _ => PIECES[n],
    }
}

// Bound k as it is, or raised where the choice is its parity, or lowered.
fn altered(c: i64, k: usize, choice: u8, draw: u8) -> i64 {
    if choice == 7 {
        return c.wrapping_sub(i64::from(draw % 3));
    }
    if usize::from(choice) != k % 2 {
        return c;
    }
    if draw % 8 == 0 {
        return i64::from(i32::MAX);
    }
    c.wrapping_add(i64::from(draw / 8 % 4))
}

impl Draws {
    pub fn new() -> Draws {
        Draws { state: 0 }
    }

    fn draw(&mut self) -> u8 {
        self.state = self.state.wrapping_mul(1103515245).wrapping_add(12345) % MODULUS;
        (self.state / 65536 % 256) as u8
    }

    // An octagon of two pieces, each fewer than `most` times, with its bounds altered. It takes ten draws.
    fn operand(&mut self, most: u8) -> Operand
        requires { 0 < most }
    {
        let one = piece(self.draw());
        let ones = self.draw() % most;
        let other = piece(self.draw());
        let others = self.draw() % most;
        let choice = self.draw() % 8;
        let x = coordinate(self.draw());
        let y = coordinate(self.draw());
        let by = [self.draw(), self.draw(), self.draw()];
        let pieces = Pieces {
            one,
            ones,
            other,
            others,
        };
        let start = Cell { x, y };
        let outline = Outline {
            start,
            sides: pieces.sides(),
        };
        let mut bounds = outline.bounds().0;
        for k in 0..8 {
            bounds[k] = altered(bounds[k], k, choice, by[k % 3]);
        }
        Operand::new(Bounds(bounds), start)
    }

    // A plot has each piece at most twice, an element at most once.
    pub fn pair(&mut self) -> Pair {
        let plot = self.operand(3);
        let element = self.operand(2);
        Pair { plot, element }
    }
}
