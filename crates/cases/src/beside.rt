// Answers of the library beside the enumerated sets.
use crate::sets::Set;
use crate::told::{Answered, Cells, Counted, Marked, verdict};
use morphology::Spread;
use octagon::{Octagon, Refusal};
use std::fmt::Display;
use std::io;

// What a set says: the bounds that it reaches and its count, or a refusal, which is `empty` where it has no cell.
fn expected(set: Set, empty: Refusal) -> Result<Counted, Refusal> {
    let bounds = set.reach().ok_or(empty)?;
    if bounds.leave_map() {
        return Err(Refusal::OffMap);
    }
    let cells = Cells(Ok(set.count()));
    Ok(Counted { bounds, cells })
}

// A line: what is asked, the answer, what the cells say, and whether the two agree.
fn line<T: Display + PartialEq + Copy>(
    rt: &impl Print,
    asked: impl Display + Drop,
    given: Result<T, Refusal>,
    expected: Result<T, Refusal>,
) -> io::Result<()> {
    println!(rt;
        "{asked}:{}; by cells{}: {}",
        Answered(given),
        Answered(expected),
        verdict(given == expected)
    )
}

// An answer, and what the set says, which is refused as `empty` says where it has no cell.
pub fn tell(
    rt: &impl Print,
    asked: impl Display + Drop,
    given: Result<Octagon, Refusal>,
    set: Set,
    empty: Refusal,
) -> io::Result<()> {
    line(rt, asked, given.map(Counted::from), expected(set, empty))
}

// An answer with its mark, and what the set and a mark say. A refusal has no mark.
pub fn tell_marked(
    rt: &impl Print,
    asked: &str,
    given: Result<Spread, Refusal>,
    set: Set,
    is_filled: bool,
) -> io::Result<()> {
    let expected = expected(set, Refusal::NothingLeft).map(|octagon| Marked { octagon, is_filled });
    line(rt, asked, given.map(Marked::from), expected)
}

// A spread beside what the set of its sums says: the cells of the smallest octagon that holds them, filled where no octagon has just them.
pub fn tell_spread(
    rt: &impl Print,
    asked: &str,
    given: Result<Spread, Refusal>,
    sums: Set,
) -> io::Result<()> {
    tell_marked(rt, asked, given, sums.within_reach(), sums.has_holes())
}
