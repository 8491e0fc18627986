// Splits that were worked out by hand, by the cases (i) to (viii) of source document 000: a plot for each case, one whose rest fits two of
// them, and one of rows alone, whose empty rest fits all. A line has the sides, the cases, the answer, and whether this is what was worked
// out.
use crate::told::{Spaced, verdict};
use decomposition::{Split, decompose};
use octagon::Refusal;
use outline::{Outline, to_octagon};
use std::io;

// A plot that starts at (-4, -5): the cases that fit, its sides, and how many there are of K1 to K13.
#[derive(Clone, Copy)]
struct Worked {
    cases: &'static str,
    sides: [u32; 8],
    counts: [u32; 13],
}

// In each of the first eight plots all sides differ.
const PLOTS: [Worked; 10] = [
    Worked {
        cases: "(i)",
        sides: [6, 14, 7, 15, 2, 8, 23, 5],
        counts: [2, 8, 7, 5, 0, 4, 0, 0, 0, 0, 6, 0, 0],
    },
    Worked {
        cases: "(ii)",
        sides: [1, 7, 13, 2, 14, 3, 8, 11],
        counts: [1, 3, 8, 2, 0, 0, 0, 5, 0, 4, 0, 0, 0],
    },
    Worked {
        cases: "(iii)",
        sides: [13, 1, 11, 10, 5, 6, 9, 7],
        counts: [5, 1, 9, 7, 2, 0, 0, 0, 3, 0, 0, 0, 0],
    },
    Worked {
        cases: "(iv)",
        sides: [8, 13, 3, 6, 14, 2, 19, 1],
        counts: [8, 2, 3, 1, 0, 0, 6, 0, 0, 0, 5, 0, 0],
    },
    Worked {
        cases: "(v)",
        sides: [5, 7, 15, 9, 6, 13, 2, 16],
        counts: [5, 7, 2, 9, 0, 0, 0, 1, 0, 0, 0, 6, 0],
    },
    Worked {
        cases: "(vi)",
        sides: [19, 4, 1, 13, 7, 6, 9, 3],
        counts: [7, 4, 1, 3, 0, 8, 0, 0, 2, 0, 0, 0, 0],
    },
    Worked {
        cases: "(vii)",
        sides: [2, 15, 9, 1, 13, 7, 14, 4],
        counts: [2, 7, 9, 1, 0, 0, 5, 0, 0, 3, 0, 0, 0],
    },
    Worked {
        cases: "(viii)",
        sides: [16, 4, 14, 2, 9, 12, 5, 3],
        counts: [9, 4, 5, 2, 7, 0, 0, 0, 0, 0, 0, 1, 0],
    },
    Worked {
        cases: "(iii) (vi)",
        sides: [12, 2, 1, 7, 6, 5, 1, 4],
        counts: [6, 2, 1, 4, 0, 0, 0, 0, 3, 0, 0, 0, 0],
    },
    Worked {
        cases: "(i) (ii) (iii) (iv) (v) (vi) (vii) (viii)",
        sides: [7, 1, 6, 3, 7, 1, 6, 3],
        counts: [7, 1, 6, 3, 0, 0, 0, 0, 0, 0, 0, 0, 0],
    },
];

fn split(o: Outline) -> Result<Split, Refusal> {
    decompose(to_octagon(o)?)
}

// The answer, and whether it is what was worked out.
fn tell_answer(rt: &impl Print, worked: Worked) -> io::Result<()> {
    let plot = Outline::with_sides(-4, -5, worked.sides);
    match split(plot) {
        Ok(Split { start, counts }) => {
            let counts = counts.to_array();
            let agrees = (start.i, start.j) == (plot.i, plot.j) && counts == worked.counts;
            print!(rt; " {} {}, counts{}", start.i, start.j, Spaced(&counts))?;
            println!(rt; ": {}", verdict(agrees))
        }
        Err(refusal) => println!(rt; " refused {}: {}", refusal.number(), verdict(false)),
    }
}

pub fn tell(rt: &impl Print) -> io::Result<()> {
    for worked in PLOTS {
        let cases = worked.cases;
        print!(rt;
            "split of sides{}, by {cases}: start",
            Spaced(&worked.sides)
        )?;
        tell_answer(rt, worked)?;
    }
    Ok(())
}
