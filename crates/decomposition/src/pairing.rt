// The triangles that make what the rows leave of an outline (source document 000's A(4)), by its eight cases.
ghost use Rattle.std.specs.Prelude.{◌≡◌, ◌+◌, ◌*◌, eqb};
ghost use Rattle.decomposition.specs.Kinds.{kind_number};
ghost use Rattle.decomposition.specs.Pairs as pairs;

use outline::Outline;

// The kinds of triangles: document 01's pieces K5 to K12 by their numbers.
#[derive(Clone, Copy, Debug, PartialEq, Eq, Hash)]
pub enum Kind {
    K5 = 5,
    K6 = 6,
    K7 = 7,
    K8 = 8,
    K9 = 9,
    K10 = 10,
    K11 = 11,
    K12 = 12,
}

// How many there are of each kind.
#[derive(Clone, Copy, Debug, PartialEq, Eq, Hash)]
pub struct Triangles {
    pub k5: u32,
    pub k6: u32,
    pub k7: u32,
    pub k8: u32,
    pub k9: u32,
    pub k10: u32,
    pub k11: u32,
    pub k12: u32,
}

impl Triangles {
    // No triangles.
    const NONE: Triangles = Triangles {
        k5: 0,
        k6: 0,
        k7: 0,
        k8: 0,
        k9: 0,
        k10: 0,
        k11: 0,
        k12: 0,
    };

    // The triangles with n of a kind in place of theirs.
    fn with_kind(self, k: Kind, n: u32) -> Triangles
        ensures { result ≡ pairs.with_kind self (kind_number k) n }
    {
        match k {
            Kind::K5 => Triangles { k5: n, ..self },
            Kind::K6 => Triangles { k6: n, ..self },
            Kind::K7 => Triangles { k7: n, ..self },
            Kind::K8 => Triangles { k8: n, ..self },
            Kind::K9 => Triangles { k9: n, ..self },
            Kind::K10 => Triangles { k10: n, ..self },
            Kind::K11 => Triangles { k11: n, ..self },
            Kind::K12 => Triangles { k12: n, ..self },
        }
    }

    // The triangles with a of kind p and b of kind q in place of theirs.
    fn with_kinds(self, p: Kind, a: u32, q: Kind, b: u32) -> Triangles
        ensures { result ≡ pairs.with_kinds self (kind_number p) a (kind_number q) b }
    {
        self.with_kind(q, b).with_kind(p, a)
    }
}

// Whether n is an even side of triangles: those of two kinds have it once, those of a third twice.
fn is_even_side(n: u32, a: u32, b: u32, c: u32) -> bool
    ensures { result ≡ eqb (a + b + 2 * c) n }
{
    (a as u64) + (b as u64) + 2 * (c as u64) == n as u64
}

// Whether n is an odd side of triangles: those of three kinds have it once. Two equations of the paper, and so two functions.
fn is_odd_side(n: u32, a: u32, b: u32, c: u32) -> bool
    ensures { result ≡ eqb (a + b + c) n }
{
    (a as u64) + (b as u64) + (c as u64) == n as u64
}

// Whether triangles make a rest: equations (5) of source document 000, with no rows and no K13.
#[tactic(auto, unfolding(crate::specs::Pairs::have_sides))]
fn have_sides(t: Triangles, r: Outline) -> bool
    ensures { result ≡ pairs.have_sides t r }
{
    is_even_side(r.n0, t.k5, t.k6, t.k9)
        & is_odd_side(r.n1, t.k7, t.k10, t.k11)
        & is_even_side(r.n2, t.k5, t.k8, t.k12)
        & is_odd_side(r.n3, t.k6, t.k9, t.k11)
        & is_even_side(r.n4, t.k7, t.k8, t.k10)
        & is_odd_side(r.n5, t.k5, t.k9, t.k12)
        & is_even_side(r.n6, t.k6, t.k7, t.k11)
        & is_odd_side(r.n7, t.k8, t.k10, t.k12)
}

// A case, of the kinds p and q: where a of the one and b of the other make the rest, they are assigned.
#[tactic(auto, unfolding(crate::specs::Pairs::assign_pair))]
fn assign_pair(t: Triangles, r: Outline, p: Kind, a: u32, q: Kind, b: u32) -> Triangles
    ensures { result ≡ pairs.assign_pair t r (kind_number p) a (kind_number q) b }
{
    if have_sides(Triangles::NONE.with_kinds(p, a, q, b), r) {
        return t.with_kinds(p, a, q, b);
    }
    t
}

// The triangles that make a rest. Each case has its pair, and the sides of the rest off which the two counts are read. Some case fits every
// plot's rest, and where several fit they assign the same counts (proofs/Rests.antt, proofs/Pairs.antt).
#[tactic(auto, unfolding(crate::specs::Pairs::triangles_of))]
pub fn count_triangles(r: Outline) -> Triangles
    ensures { result ≡ pairs.triangles_of r }
{
    let t = Triangles::NONE;
    // (i) K6 and K11
    let t = assign_pair(t, r, Kind::K6, r.n0, Kind::K11, r.n1);
    // (ii) K8 and K10
    let t = assign_pair(t, r, Kind::K8, r.n2, Kind::K10, r.n1);
    // (iii) K5 and K9
    let t = assign_pair(t, r, Kind::K5, r.n2, Kind::K9, r.n3);
    // (iv) K7 and K11
    let t = assign_pair(t, r, Kind::K7, r.n4, Kind::K11, r.n3);
    // (v) K8 and K12
    let t = assign_pair(t, r, Kind::K8, r.n4, Kind::K12, r.n5);
    // (vi) K6 and K9
    let t = assign_pair(t, r, Kind::K6, r.n6, Kind::K9, r.n5);
    // (vii) K7 and K10
    let t = assign_pair(t, r, Kind::K7, r.n6, Kind::K10, r.n7);
    // (viii) K5 and K12
    let t = assign_pair(t, r, Kind::K5, r.n0, Kind::K12, r.n7);
    t
}
