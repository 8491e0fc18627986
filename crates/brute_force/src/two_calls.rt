// Folds in two calls (document 02's U7): what m folds gave, folded n times more, is expected to be what the set after m + n folds says. No call
// of the library is made for that.
use crate::answers::Marked;
use crate::folds::{FOLD_LIMIT, Fold};
use crate::operands::Pair;
use crate::tally::Tally;
use octagon::Refusal;

// m folds and then n.
#[derive(Clone, Copy)]
struct Folds {
    fold: Fold,
    m: u32,
    n: u32,
}

impl Folds {
    // Two calls beside what is expected of m + n folds. What a fold gave is not opposed to the element, so that the second call is exact.
    fn compare(self, tally: &mut Tally, pair: &Pair, all: &Result<Marked, Refusal>) {
        let expected = if self.m == 0 {
            *all
        } else {
            all.map(|octagon| Marked::exact(octagon.bounds))
        };
        let given = self.fold.in_two(pair, self.m, self.n);
        tally.compare(self.fold.rows().in_two, &expected, &given);
    }

    // The same beside what is expected of the first m too. A first trim that is off the map tells nothing of the set after m + n folds.
    fn compare_after(
        self,
        tally: &mut Tally,
        pair: &Pair,
        first: &Result<Marked, Refusal>,
        all: &Result<Marked, Refusal>,
    ) {
        if self.fold == Fold::Dilation || *first != Err(Refusal::OffMap) {
            self.compare(tally, pair, all);
        }
    }
}

// All the ways to make no folds to four in two calls; and as many folds as the limit has, few and then the rest, and the other way round. After
// nearly all of them a plot that one cell moves may still be on the map, at its other edge: the last few move it off.
pub fn compare(
    tally: &mut Tally,
    pair: &Pair,
    fold: Fold,
    few: &[Result<Marked, Refusal>; 5],
    most: &Result<Marked, Refusal>,
) {
    for all in 0..5 {
        for m in 0..=all {
            let folds = Folds {
                fold,
                m,
                n: all - m,
            };
            folds.compare_after(tally, pair, &few[m as usize], &few[all as usize]);
        }
    }
    for n in 0..5 {
        let rest = FOLD_LIMIT - n;
        let few_first = Folds {
            fold,
            m: n,
            n: rest,
        };
        few_first.compare_after(tally, pair, &few[n as usize], most);
        let most_first = Folds { fold, m: rest, n };
        most_first.compare(tally, pair, most);
    }
}
