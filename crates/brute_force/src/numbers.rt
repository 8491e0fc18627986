// The ten numbers by which an answer enters the digest of its call. Signed numbers are counted from LIFT.
use crate::answers::Marked;
use crate::cells::Cell;
use crate::outlines::Outline;

const LIFT: i64 = 4294967296;

pub trait Numbers {
    fn numbers(&self) -> [u64; 10];

    // Whether it is an octagon that is filled.
    fn is_filled(&self) -> bool {
        false
    }
}

fn lifted(z: i64) -> u64 {
    z.wrapping_add(LIFT).cast_unsigned()
}

impl Numbers for Marked {
    fn numbers(&self) -> [u64; 10] {
        let [c0, c1, c2, c3, c4, c5, c6, c7] = self.bounds.0.map(lifted);
        [c0, c1, c2, c3, c4, c5, c6, c7, 0, 0]
    }

    fn is_filled(&self) -> bool {
        self.is_filled
    }
}

// A count.
impl Numbers for u64 {
    fn numbers(&self) -> [u64; 10] {
        [*self, 0, 0, 0, 0, 0, 0, 0, 0, 0]
    }
}

impl Numbers for Outline {
    fn numbers(&self) -> [u64; 10] {
        let [n0, n1, n2, n3, n4, n5, n6, n7] = self.sides.map(u64::from);
        let [i, j, ..] = self.start.numbers();
        [n0, n1, n2, n3, n4, n5, n6, n7, i, j]
    }
}

impl Numbers for Cell {
    fn numbers(&self) -> [u64; 10] {
        let x = lifted(i64::from(self.x));
        let y = lifted(i64::from(self.y));
        [x, y, 0, 0, 0, 0, 0, 0, 0, 0]
    }
}
