// What `pattern_spectrum` answers, in words and in a digest.
use octagon::Refusal;
use spectrum::Spectrum;
use std::fmt;

// An answer: its word, the number of its case in a digest, and how many trims were made, or the number of the refusal.
#[derive(Clone, Copy)]
pub struct Told {
    word: &'static str,
    case: u64,
    number: usize,
}

impl From<Result<Spectrum, Refusal>> for Told {
    fn from(answer: Result<Spectrum, Refusal>) -> Told {
        let (word, case, number) = match answer {
            Ok(Spectrum::Finished(n)) => ("finished", 0, n),
            Ok(Spectrum::Spent(n)) => ("spent", 1, n),
            Err(refusal) => ("refused", 2, refusal.number() as usize),
        };
        Told { word, case, number }
    }
}

impl fmt::Display for Told {
    fn fmt<W: fmt::Write>(&self, f: &mut fmt::Formatter<W>) -> fmt::Result {
        write!(f, "{} {}", self.word, self.number)
    }
}

// Goes on with a number, round 2 ^ 64.
pub fn mixed(sum: u64, n: u64) -> u64 {
    sum.wrapping_mul(69069).wrapping_add(n)
}

impl Told {
    // A number made of the answer and of the places of the list after the call, in order.
    pub fn digest(&self, list: &[u64]) -> u64 {
        let answer = mixed(self.case, self.number as u64);
        list.iter().fold(answer, |sum, n| mixed(sum, *n))
    }
}
