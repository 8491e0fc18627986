// A digest: a number made of answers in order.
use crate::answers::bounds;
use octagon::{Octagon, Refusal};
use std::fmt;

#[derive(Clone, Copy, Default)]
pub struct Digest(u32);

impl Digest {
    fn mix(&mut self, n: u32) {
        self.0 = self.0.wrapping_mul(69069).wrapping_add(n);
    }

    // Goes on with a sign and a magnitude.
    fn mix_signed(&mut self, n: i32) {
        self.mix(u32::from(n < 0));
        self.mix(n.unsigned_abs());
    }

    // Goes on with 0 and eight bounds, or with the number of a refusal.
    pub fn mix_answer(&mut self, answer: Result<Octagon, Refusal>) {
        match answer {
            Ok(octagon) => {
                self.mix(0);
                for bound in bounds(octagon) {
                    self.mix_signed(bound);
                }
            }
            Err(refusal) => self.mix(refusal.number()),
        }
    }
}

impl fmt::Display for Digest {
    fn fmt<W: fmt::Write>(&self, f: &mut fmt::Formatter<W>) -> fmt::Result {
        write!(f, "{}", self.0)
    }
}
