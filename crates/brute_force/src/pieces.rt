// Document 01's thirteen pieces.

#[derive(Clone, Copy, PartialEq, Eq)]
pub enum Piece {
    K1,
    K2,
    K3,
    K4,
    K5,
    K6,
    K7,
    K8,
    K9,
    K10,
    K11,
    K12,
    K13,
}

use Piece::{K1, K2, K3, K4, K5, K6, K7, K8, K9, K10, K11, K12, K13};

pub const PIECES: [Piece; 13] = [K1, K2, K3, K4, K5, K6, K7, K8, K9, K10, K11, K12, K13];

impl Piece {
    // The sides n0 to n7.
    pub fn sides(self) -> [u8; 8] {
        match self {
            K1 => [1, 0, 0, 0, 1, 0, 0, 0],
            K2 => [0, 1, 0, 0, 0, 1, 0, 0],
            K3 => [0, 0, 1, 0, 0, 0, 1, 0],
            K4 => [0, 0, 0, 1, 0, 0, 0, 1],
            K5 => [1, 0, 1, 0, 0, 1, 0, 0],
            K6 => [1, 0, 0, 1, 0, 0, 1, 0],
            K7 => [0, 1, 0, 0, 1, 0, 1, 0],
            K8 => [0, 0, 1, 0, 1, 0, 0, 1],
            K9 => [2, 0, 0, 1, 0, 1, 0, 0],
            K10 => [0, 1, 0, 0, 2, 0, 0, 1],
            K11 => [0, 1, 0, 1, 0, 0, 2, 0],
            K12 => [0, 0, 2, 0, 0, 1, 0, 1],
            K13 => [0, 1, 0, 1, 0, 1, 0, 1],
        }
    }
}

// Some of one piece and some of another.
#[derive(Clone, Copy)]
pub struct Pieces {
    pub one: Piece,
    pub ones: u8,
    pub other: Piece,
    pub others: u8,
}

impl Pieces {
    // One piece alone.
    pub fn single(piece: Piece) -> Pieces {
        Pieces {
            one: piece,
            ones: 1,
            other: piece,
            others: 0,
        }
    }

    // The sides of all together.
    pub fn sides(self) -> [u32; 8] {
        let one = self.one.sides();
        let other = self.other.sides();
        let mut sides = [0; 8];
        for k in 0..8 {
            sides[k] = u32::from(self.ones) * u32::from(one[k])
                + u32::from(self.others) * u32::from(other[k]);
        }
        sides
    }
}
