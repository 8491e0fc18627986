// The counts of the pieces of an outline: first the rows, then the triangles of what they leave, last K13.
ghost use Rattle.std.specs.Prelude.{◌≡◌, ◌+◌};
ghost use Rattle.decomposition.specs.Rule as rule;
ghost use Rattle.decomposition.specs.Splitting as splitting;

use crate::Counts;
use crate::pairing::{Triangles, count_triangles};
use outline::Outline;

// What the opposite sides leave of an outline: source document 000's A(4).
#[tactic(auto, unfolding(crate::specs::Splitting::rest))]
fn rest(o: Outline) -> Outline
    ensures { result ≡ splitting.rest o }
{
    Outline {
        i: 0,
        j: 0,
        n0: o.n0.saturating_sub(o.n4),
        n1: o.n1.saturating_sub(o.n5),
        n2: o.n2.saturating_sub(o.n6),
        n3: o.n3.saturating_sub(o.n7),
        n4: o.n4.saturating_sub(o.n0),
        n5: o.n5.saturating_sub(o.n1),
        n6: o.n6.saturating_sub(o.n2),
        n7: o.n7.saturating_sub(o.n3),
    }
}

// The rows K1 to K4 of an outline, with triangles.
#[tactic(auto, unfolding(crate::specs::Splitting::with_rows))]
fn with_rows(o: Outline, t: Triangles) -> Counts
    ensures { result ≡ splitting.with_rows o t }
{
    Counts {
        k1: o.n0.min(o.n4),
        k2: o.n1.min(o.n5),
        k3: o.n2.min(o.n6),
        k4: o.n3.min(o.n7),
        k5: t.k5,
        k6: t.k6,
        k7: t.k7,
        k8: t.k8,
        k9: t.k9,
        k10: t.k10,
        k11: t.k11,
        k12: t.k12,
        k13: 0,
    }
}

// The sum of five counts, which always fits.
fn sum5(a: u32, b: u32, c: u32, d: u32, e: u32) -> u64
    ensures { result ≡ a + b + c + d + e }
{
    (a as u64) + (b as u64) + (c as u64) + (d as u64) + (e as u64)
}

// How many pieces there are but K2, K4 and K13.
fn others(k: Counts) -> u64
    ensures { result ≡ rule.others k }
{
    sum5(k.k1, k.k3, k.k5, k.k6, k.k7) + sum5(k.k8, k.k9, k.k10, k.k11, k.k12)
}

// Whether K2 and K4 are there and nothing else is.
#[tactic(auto, unfolding(crate::specs::Splitting::is_crossed))]
fn is_crossed(k: Counts) -> bool
    ensures { result ≡ splitting.is_crossed k }
{
    (0 < k.k2) & (0 < k.k4) & (others(k) == 0)
}

// The last step: where K2 and K4 are there and nothing else is, one of each becomes one K13.
#[tactic(auto, unfolding(crate::specs::Splitting::with_k13, crate::specs::Splitting::is_crossed))]
fn with_k13(k: Counts) -> Counts
    ensures { result ≡ splitting.with_k13 k }
{
    if is_crossed(k) {
        return Counts {
            k2: k.k2 - 1,
            k4: k.k4 - 1,
            k13: 1,
            ..k
        };
    }
    k
}

// The counts of the pieces.
#[tactic(auto, unfolding(crate::specs::Splitting::counts, crate::specs::Splitting::first_counts))]
pub fn count_pieces(o: Outline) -> Counts
    ensures { result ≡ splitting.counts o }
{
    with_k13(with_rows(o, count_triangles(rest(o))))
}
