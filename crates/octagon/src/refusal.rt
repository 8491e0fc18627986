// The refusals of documents 01 and 02: why a call hands nothing back.
ghost use Rattle.std.specs.Prelude.{◌≡◌};
ghost use Rattle.octagon.specs.Answers.{refusal_number};

use std::error::Error;
use std::fmt;

// Each refusal has its number in the documents. None is 4.
#[derive(Clone, Copy, Debug, PartialEq, Eq, Hash)]
pub enum Refusal {
    NoCell = 1,
    OffMap = 2,
    NotClosed = 3,
    NothingLeft = 5,
    TooManyFolds = 6,
    NoVertex = 7,
    BadLength = 8,
    BadTrailer = 9,
    BadDistance = 10,
    BadNumber = 11,
    NoRoom = 12,
    NoRecord = 13,
    NotFinite = 14,
    NoPoint = 15,
    HalfPoint = 16,
    TooWide = 17,
    TwoRecords = 18,
    NoOrigin = 19,
    NoOtherCell = 20,
    OffOldMap = 21,
}

impl Refusal {
    // The documents' number.
    pub fn number(self) -> u32
        ensures { result ≡ refusal_number self }
    {
        self as u32
    }
}

// A refusal in words.
impl fmt::Display for Refusal {
    fn fmt<W: fmt::Write>(&self, f: &mut fmt::Formatter<W>) -> fmt::Result {
        f.write_str(match self {
            Refusal::NoCell => "the bounds hold no cell",
            Refusal::OffMap => "a cell lies off the map",
            Refusal::NotClosed => "the outline does not close",
            Refusal::NothingLeft => "no position fits",
            Refusal::TooManyFolds => "more than 4,000,001 folds",
            Refusal::NoVertex => "the corner number is above 7",
            Refusal::BadLength => "no sheet has that length",
            Refusal::BadTrailer => "the trailer's marks are wrong",
            Refusal::BadDistance => "the trailer's distance is wrong",
            Refusal::BadNumber => "a plot number is wrong",
            Refusal::NoRoom => "the sheet has no room",
            Refusal::NoRecord => "the sheet has no such record",
            Refusal::NotFinite => "a coordinate is no finite number",
            Refusal::NoPoint => "the tape is empty",
            Refusal::HalfPoint => "the tape ends in half a point",
            Refusal::TooWide => "the radius is above 255",
            Refusal::TwoRecords => "one plot number stands for two records",
            Refusal::NoOrigin => "the frame lacks the cell (0, 0)",
            Refusal::NoOtherCell => "the frame has one cell alone",
            Refusal::OffOldMap => "a plot leaves the old map",
        })
    }
}

impl Error for Refusal {}

#[cfg(test)]
mod tests {
    use super::Refusal;
    use std::test::Fail;

    #[test]
    fn words_of_a_refusal(rt: HostRuntime) -> Result<(), Fail> {
        let words = format!(in rt.alloc(); "{}; {}", Refusal::NoVertex, Refusal::TwoRecords)?;
        assert_eq!(rt;
            words.as_str(),
            "the corner number is above 7; one plot number stands for two records"
        );
        Ok(())
    }
}
