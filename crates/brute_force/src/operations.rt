// Dilation, erosion, opening, closing and the folds of one pair of octagons beside the enumerated sets; as many folds as the limit has
// beside what is known of them.
use crate::answers::{Marked, smallest};
use crate::folds::{FOLD_LIMIT, Fold};
use crate::operands::Pair;
use crate::tally::Tally;
use crate::two_calls;
use octagon::Refusal;

// Every operation on a pair. Gives what is expected of the opening.
pub fn compare_all(tally: &mut Tally, pair: &Pair) -> Result<Marked, Refusal> {
    if let Err(refusal) = pair.plot.normal.and(pair.element.normal) {
        compare_refused(tally, pair, Fold::Dilation, refusal);
        compare_refused(tally, pair, Fold::Erosion, refusal);
        return Err(refusal);
    }
    let _closed = compare_steps(tally, pair, Fold::Dilation);
    let opened = compare_steps(tally, pair, Fold::Erosion);
    compare_folds(tally, pair, Fold::Dilation);
    compare_folds(tally, pair, Fold::Erosion);
    opened
}

// A pair with an operand that is refused: every operation is refused as it is.
fn compare_refused(tally: &mut Tally, pair: &Pair, fold: Fold, refusal: Refusal) {
    let rows = fold.rows();
    tally.compare(rows.once, &Err(refusal), &fold.once(pair));
    tally.compare(rows.and_back, &Err(refusal), &fold.and_back(pair));
    tally.compare(rows.times, &Err(refusal), &fold.times(pair, 1));
    tally.compare(rows.in_two, &Err(refusal), &fold.in_two(pair, 1, 1));
}

// A fold and then the opposite one. What the first refuses is the answer of the two. What an erosion leaves is an octagon, so that the mark
// of both steps is the dilation's, and no more than one is filled. Gives what is expected of the two.
fn compare_steps(tally: &mut Tally, pair: &Pair, fold: Fold) -> Result<Marked, Refusal> {
    let rows = fold.rows();
    let cells = fold.folded(&pair.plot.cells, &pair.element.cells);
    let first = smallest(&cells, Refusal::NothingLeft);
    tally.compare(rows.once, &first, &fold.once(pair));

    let last = first.and_then(|_| {
        let back = fold.opposite().folded(&cells, &pair.element.cells);
        smallest(&back, Refusal::NothingLeft)
    });
    let marks = [first, last].map(|step| step.is_ok_and(|octagon| octagon.is_filled));
    let both = last.map(|octagon| Marked {
        is_filled: marks != [false, false],
        ..octagon
    });
    let agrees = both == fold.and_back(pair) && marks != [true, true];
    tally.note(rows.and_back, &both, agrees);
    both
}

// No folds to four, as many folds as the limit has, and one more, in one call; and those up to the limit in two.
fn compare_folds(tally: &mut Tally, pair: &Pair, fold: Fold) {
    let row = fold.rows().times;
    let few = fold.expect_few(pair);
    let most = fold.expect_most(pair);
    for n in 0..5 {
        tally.compare(row, &few[n as usize], &fold.times(pair, n));
    }
    tally.compare(row, &most, &fold.times(pair, FOLD_LIMIT));
    let too_many = Err(Refusal::TooManyFolds);
    tally.compare(row, &too_many, &fold.times(pair, FOLD_LIMIT + 1));
    two_calls::compare(tally, pair, fold, &few, &most);
}
