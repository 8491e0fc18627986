// Whether an outline closes.
ghost use Rattle.std.specs.Prelude.{◌≡◌, ◌+◌};
ghost use Rattle.outline.specs.Closing as closing;

use crate::Outline;

// The sum of three lengths, which always fits.
fn sum3(a: u32, b: u32, c: u32) -> u64
    ensures { result ≡ a + b + c }
{
    (a as u64) + (b as u64) + (c as u64)
}

// Whether as many columns are walked forth as back, and as many rows up as down.
pub fn closes(o: Outline) -> bool
    ensures { result ≡ closing.closes o }
{
    (sum3(o.n0, o.n1, o.n7) == sum3(o.n3, o.n4, o.n5))
        & (sum3(o.n1, o.n2, o.n3) == sum3(o.n5, o.n6, o.n7))
}
