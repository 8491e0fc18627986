// The tally of the comparisons, a row for each call.
use crate::calls::{CALLS, Call};
use crate::numbers::Numbers;
use octagon::Refusal;
use std::fmt;

const PRIME: u64 = 1000000007;

// The refusals that are expected of the calls.
const REFUSALS: [Refusal; 6] = [
    Refusal::NoCell,
    Refusal::OffMap,
    Refusal::NotClosed,
    Refusal::NothingLeft,
    Refusal::TooManyFolds,
    Refusal::NoVertex,
];

#[derive(Clone, Copy)]
struct Row {
    // How often the call was expected to be accepted, and how many of these were filled.
    accepted: u64,
    filled: u64,
    // How often it was to be refused, for each of the refusals.
    refused: [u64; 6],
    // How many answers agreed.
    agreed: u64,
    // A digest of what was expected.
    digest: u64,
}

impl Row {
    const EMPTY: Row = Row {
        accepted: 0,
        filled: 0,
        refused: [0; 6],
        agreed: 0,
        digest: 0,
    };

    fn mix(&mut self, n: u64) {
        self.digest = (self.digest % PRIME * 31 + n % PRIME) % PRIME;
    }

    // Counts a refusal that was expected.
    fn refuse(&mut self, refusal: Refusal) {
        for (named, times) in REFUSALS.iter().zip(&mut self.refused) {
            if *named == refusal {
                *times = times.wrapping_add(1);
            }
        }
    }

    // Mixes what is expected into the digest: ten numbers, then the refusal number, or 0, and last 1 for an octagon that is filled.
    fn note<T: Numbers>(&mut self, expected: &Result<T, Refusal>, agrees: bool) {
        let (numbers, refusal, is_filled) = match expected {
            Ok(answer) => {
                self.accepted = self.accepted.wrapping_add(1);
                (answer.numbers(), 0, answer.is_filled())
            }
            Err(refusal) => {
                self.refuse(*refusal);
                ([0; 10], refusal.number(), false)
            }
        };
        for n in numbers {
            self.mix(n);
        }
        self.mix(u64::from(refusal));
        self.mix(u64::from(is_filled));
        self.filled = self.filled.wrapping_add(u64::from(is_filled));
        self.agreed = self.agreed.wrapping_add(u64::from(agrees));
    }
}

impl fmt::Display for Row {
    fn fmt<W: fmt::Write>(&self, f: &mut fmt::Formatter<W>) -> fmt::Result {
        write!(f, "{} {}", self.accepted, self.filled)?;
        for n in self.refused {
            write!(f, " {n}")?;
        }
        write!(f, " {} {}", self.agreed, self.digest)
    }
}

#[derive(Drop)]
pub struct Tally {
    rt: HostRuntime,
    // The number of the pair at hand.
    pub pair: u32,
    rows: [Row; 15],
}

// A line that cannot be written is left out, and the status is 0 all the same.
impl Tally {
    pub fn new(rt: HostRuntime) -> Tally {
        Tally {
            rt,
            pair: 0,
            rows: [Row::EMPTY; 15],
        }
    }

    // Notes whether the answer to a call agrees with what is expected.
    pub fn note<T: Numbers>(&mut self, call: Call, expected: &Result<T, Refusal>, agrees: bool) {
        self.rows[call as usize].note(expected, agrees);
        if !agrees {
            let _ = println!(self.rt; "disagree {:<12} {}", call.name(), self.pair);
        }
    }

    // Notes the answer to a call beside what is expected.
    pub fn compare<T: Numbers + PartialEq>(
        &mut self,
        call: Call,
        expected: &Result<T, Refusal>,
        given: &Result<T, Refusal>,
    ) {
        self.note(call, expected, expected == given);
    }

    // Mixes more of what is expected into the digest of a call.
    pub fn mix(&mut self, call: Call, numbers: &[u32]) {
        for n in numbers {
            self.rows[call as usize].mix(u64::from(*n));
        }
    }

    // Prints the line of each call.
    pub fn print(&self) {
        let _ = println!(self.rt;
            "call         accepted, of these filled, refused with 1, 2, 3, 5, 6, 7, agreed, digest"
        );
        for call in CALLS {
            let _ = println!(self.rt; "{:<12} {}", call.name(), self.rows[call as usize]);
        }
    }
}
