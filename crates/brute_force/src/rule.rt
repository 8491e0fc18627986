// Document 01's rule for the counts of the pieces, on the sides that a walk round a plot's cells has: the rows K1 to K4, then the
// triangles K5 to K12 by trial of every pair of kinds with every small number of each, last K13.
use crate::pieces::Piece::{K5, K6, K7, K8, K9, K10, K11, K12};
use crate::pieces::{Piece, Pieces};

// The kinds of triangles that stand together.
const PAIRS: [[Piece; 2]; 8] = [
    [K6, K11],
    [K8, K10],
    [K5, K9],
    [K7, K11],
    [K8, K12],
    [K6, K9],
    [K7, K10],
    [K5, K12],
];

// The counts of the rows: the smaller of each two opposite sides.
fn rows(sides: &[u32; 8]) -> [u32; 4] {
    let mut rows = [0; 4];
    for k in 0..4 {
        rows[k] = sides[k].min(sides[k + 4]);
    }
    rows
}

// The counts of K1 to K13 by the rule, or None where no choice of triangles fits, or two fit whose counts differ.
pub fn counts(sides: &[u32; 8]) -> Option<[u32; 13]> {
    let rows = rows(sides);
    let mut rest = *sides;
    for k in 0..8 {
        rest[k] = rest[k].saturating_sub(rows[k % 4]);
    }
    let mut counts = triangles(&rest)?;
    counts[..4].copy_from_slice(&rows);
    Some(exchange(counts))
}

// The counts of the triangles that make what the rows leave. No side of a drawn plot is longer than 8, so that no count is.
fn triangles(rest: &[u32; 8]) -> Option<[u32; 13]> {
    let mut found = None;
    for [one, other] in PAIRS {
        for ones in 0..10 {
            for others in 0..10 {
                let choice = Pieces {
                    one,
                    ones,
                    other,
                    others,
                };
                if choice.sides() == *rest {
                    let counts = counts_of(choice);
                    if found.is_some_and(|before| before != counts) {
                        return None;
                    }
                    found = Some(counts);
                }
            }
        }
    }
    found
}

// A choice as counts of K1 to K13: choices of different pairs are the same where their counts are.
fn counts_of(choice: Pieces) -> [u32; 13] {
    let mut counts = [0; 13];
    counts[choice.one as usize] = u32::from(choice.ones);
    counts[choice.other as usize] = u32::from(choice.others);
    counts
}

// The last step: where K2 and K4 are there and nothing else is, one of each becomes one K13.
fn exchange(counts: [u32; 13]) -> [u32; 13] {
    match counts {
        [0, k2 @ 1.., 0, k4 @ 1.., 0, 0, 0, 0, 0, 0, 0, 0, _] => {
            [0, k2 - 1, 0, k4 - 1, 0, 0, 0, 0, 0, 0, 0, 0, 1]
        }
        _ => counts,
    }
}
