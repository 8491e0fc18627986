// The sides of an octagon, and its outline.
ghost use Rattle.std.specs.Prelude.{◌≡◌, nat_abs};
ghost use Rattle.octagon.specs.NormalForm as form;
ghost use Rattle.outline.specs.Outlining as outlining;

use crate::Outline;
use integers::sum;
use octagon::{NormalForm, Octagon};

// The length of an even side, from its bound and the bounds beside it.
fn even_side(before: i32, own: i32, after: i32) -> u32
    requires { outlining.SideLength (form.even_side before own after) }
    ensures { result ≡ nat_abs (form.even_side before own after) }
{
    (sum(before, after) - sum(own, own)) as u32
}

// The length of an odd side. Even and odd sides have a rule each in document 01, and so a function each.
fn odd_side(before: i32, own: i32, after: i32) -> u32
    requires { outlining.SideLength (form.odd_side before own after) }
    ensures { result ≡ nat_abs (form.odd_side before own after) }
{
    (sum(before, after) - (own as i64)) as u32
}

// The outline of an octagon.
pub fn outline_of(a: NormalForm) -> Outline
    ensures { result ≡ outlining.outline_of a.bounds }
{
    let Octagon {
        c0,
        c1,
        c2,
        c3,
        c4,
        c5,
        c6,
        c7,
    } = a.bounds;
    Outline {
        i: c0 - c7,
        j: -c0,
        n0: even_side(c7, c0, c1),
        n1: odd_side(c0, c1, c2),
        n2: even_side(c1, c2, c3),
        n3: odd_side(c2, c3, c4),
        n4: even_side(c3, c4, c5),
        n5: odd_side(c4, c5, c6),
        n6: even_side(c5, c6, c7),
        n7: odd_side(c6, c7, c0),
    }
}
