// Eight bounds in 64 bits, wide enough for multiples of bounds and for the sums of a normal form, and the normal form of them. It is for
// this crate and `morphology`: users have `octagon::normalise`, which takes any eight bounds.
ghost use Rattle.std.specs.Prelude.{◌≡◌};
ghost use Rattle.std.specs.Int.{w32};
ghost use Rattle.integers.specs.Range.{Room};
ghost use Rattle.octagon.specs.NormalForm as form;
ghost use Rattle.octagon.specs.Answers.{outcome, octagon_of};
ghost use Rattle.octagon.specs.Widths.{Held, Roomy};

use crate::{Octagon, Refusal, on_map};
use integers::half;

// Eight bounds in 64 bits.
pub type Bounds = Octagon<i64>;

// The bounds of an octagon in 64 bits. A function, as `narrow` is, which asks that the bounds fit and so is no `TryFrom`.
pub fn widen(o: Octagon) -> Bounds
    ensures { octagon_of result ≡ o }
{
    o.map(i64::from)
}

// The least that an even bound can be, from the two bounds on each side of it.
fn even_bound(far_before: i64, before: i64, own: i64, after: i64, far_after: i64) -> i64
    requires room { Room 1 far_before }
    requires room_2 { Room 1 before }
    requires room_3 { Room 1 after }
    requires room_4 { Room 1 far_after }
    ensures { result ≡ form.even_bound far_before before own after far_after }
{
    own.min(far_before + after)
        .min((before + far_after).min(half(before + after)))
}

// The even bounds made as small as they can be.
#[tactic(auto, unfolding(crate::specs::NormalForm::tight_even))]
fn tighten_even(b: Bounds) -> Bounds
    requires { Roomy 3 (octagon_of b) }
    ensures { octagon_of result ≡ form.tight_even (octagon_of b) }
{
    let Bounds {
        c0,
        c1,
        c2,
        c3,
        c4,
        c5,
        c6,
        c7,
    } = b;
    Bounds {
        c0: even_bound(c6, c7, c0, c1, c2),
        c1,
        c2: even_bound(c0, c1, c2, c3, c4),
        c3,
        c4: even_bound(c2, c3, c4, c5, c6),
        c5,
        c6: even_bound(c4, c5, c6, c7, c0),
        c7,
    }
}

// The least that an odd bound can be, from its neighbours.
fn odd_bound(before: i64, own: i64, after: i64) -> i64
    requires room { Room 1 before }
    requires room_2 { Room 1 after }
    ensures { result ≡ form.odd_bound before own after }
{
    own.min(before + after)
}

// The odd bounds made as small as they can be beside the even ones.
#[tactic(auto, unfolding(crate::specs::NormalForm::tight_odd))]
fn tighten_odd(b: Bounds) -> Bounds
    requires { Roomy 2 (octagon_of b) }
    ensures { octagon_of result ≡ form.tight_odd (octagon_of b) }
{
    let Bounds {
        c0,
        c1,
        c2,
        c3,
        c4,
        c5,
        c6,
        c7,
    } = b;
    Bounds {
        c0,
        c1: odd_bound(c0, c1, c2),
        c2,
        c3: odd_bound(c2, c3, c4),
        c4,
        c5: odd_bound(c4, c5, c6),
        c6,
        c7: odd_bound(c6, c7, c0),
    }
}

// Whether two opposite bounds leave a line between them.
fn meet(a: i64, b: i64) -> bool
    requires room { Room 1 a }
    requires room_2 { Room 1 b }
    ensures { result ≡ form.meet a b }
{
    0 <= a + b
}

// Whether a normal form has a cell.
#[tactic(auto, unfolding(crate::specs::NormalForm::has_cell))]
fn has_cell(b: Bounds) -> bool
    requires { Roomy 1 (octagon_of b) }
    ensures { result ≡ form.has_cell (octagon_of b) }
{
    meet(b.c0, b.c4) & meet(b.c1, b.c5) & meet(b.c2, b.c6) & meet(b.c3, b.c7)
}

// Whether normalised bounds are on the map.
#[tactic(auto, unfolding(crate::specs::NormalForm::is_on_map))]
pub fn is_on_map(b: Bounds) -> bool
    ensures { result ≡ form.is_on_map (octagon_of b) }
{
    on_map(b.c0, b.c2, b.c4, b.c6)
}

// The same bounds in 32 bits.
pub fn narrow(b: Bounds) -> Octagon
    requires { Held w32 (octagon_of b) }
    ensures { result ≡ octagon_of b }
{
    b.map(|c| c as i32)
}

// What `normalise` answers, of bounds that leave room for sums of eight. That they do is asked here, in `tighten_even` and in `fit_wide`: a
// type of such bounds would be made and taken apart at each of the three.
pub fn normalise_bounds(w: Bounds) -> Result<Octagon, Refusal>
    requires { Roomy 3 (octagon_of w) }
    ensures { outcome result ≡ form.normalised (octagon_of w) }
{
    let b = tighten_odd(tighten_even(w));
    if !has_cell(b) {
        return Err(Refusal::NoCell);
    }
    if !is_on_map(b) {
        return Err(Refusal::OffMap);
    }
    Ok(narrow(b))
}
