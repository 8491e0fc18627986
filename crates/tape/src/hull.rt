// Octagons of one cell, and the octagon that reaches what either of two reaches.
ghost use Rattle.std.specs.Prelude.{◌≡◌};
ghost use Rattle.std.specs.Int.{w32};
ghost use Rattle.octagon.specs.OneCell.{one_cell};
ghost use Rattle.octagon.specs.Widths.{Held};
ghost use Rattle.tape.specs.Hull as hulls;

use octagon::Octagon;

// The octagon of the one cell (x, y), where its bounds fit.
pub fn one_cell(x: i32, y: i32) -> Octagon
    requires { Held w32 (one_cell x y) }
    ensures { result ≡ one_cell x y }
{
    Octagon {
        c0: -y,
        c1: x - y,
        c2: x,
        c3: x + y,
        c4: y,
        c5: -x + y,
        c6: -x,
        c7: -x - y,
    }
}

// The octagon that reaches what either reaches, bound by bound.
pub fn hull(a: Octagon, b: Octagon) -> Octagon
    ensures { result ≡ hulls.hull a b }
{
    a.zip_with(b, |p, q| q.max(p))
}
