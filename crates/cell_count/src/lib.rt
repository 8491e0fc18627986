// The number of cells of an octagon, in constant time: those of the rectangle round it, less those that its four diagonal sides cut off.
//
// specs/Count.antt has the count by a test over cells, specs/Area.antt the formula, proofs/Counted.antt the theorems between them.
#![tactic(auto)]

ghost use Rattle.std.specs.Prelude.{◌≡◌, ◌+◌, ◌*◌, ◌≤◌, pos, nat_abs, ◌+ℤ◌};
ghost use Rattle.octagon.specs.Cells.{limit};
ghost use Rattle.octagon.specs.NormalForm.{odd_side};
ghost use Rattle.cell_count.specs.Area as spec;
ghost use Rattle.octagon.specs.Answers.{outcome};

use octagon::{NormalForm, Octagon, Refusal};

// A length on the map as an unsigned number.
fn unsigned(z: i64) -> u64
    requires { spec.MapLength z }
    ensures { result ≡ nat_abs z }
{
    z as u64
}

// The number of columns, or of rows, from one bound to the opposite one.
fn extent(low: i32, high: i32) -> u64
    requires { spec.MapLength (low +ℤ high +ℤ pos 1) }
    ensures { result ≡ spec.extent low high }
{
    unsigned((low as i64) + (high as i64) + 1)
}

// The cells of the least rectangle round an octagon.
fn rectangle(a: NormalForm) -> u64
    ensures { result ≡ spec.rectangle a.bounds }
{
    let Octagon { c0, c2, c4, c6, .. } = a.bounds;
    extent(c0, c4) * extent(c6, c2)
}

// 1 + 2 + .. + n.
fn triangle(n: u64) -> u64
    requires { n ≤ 2 * limit + 1 }
    ensures { result ≡ spec.triangle n }
{
    n * (n + 1) / 2
}

// The cells that a diagonal side cuts off the rectangle.
fn cut(before: i32, own: i32, after: i32) -> u64
    requires { spec.MapLength (odd_side before own after) }
    ensures { result ≡ spec.cut before own after }
{
    triangle(unsigned((before as i64) + (after as i64) - (own as i64)))
}

// The cells that all four cut off.
fn cuts(a: NormalForm) -> u64
    ensures { result ≡ spec.cuts a.bounds }
{
    let Octagon {
        c0,
        c1,
        c2,
        c3,
        c4,
        c5,
        c6,
        c7,
    } = a.bounds;
    cut(c0, c1, c2) + cut(c2, c3, c4) + (cut(c4, c5, c6) + cut(c6, c7, c0))
}

// The number of cells of an octagon in normal form, for this crate and `spectrum`: `count_cells` takes any eight bounds.
pub fn area(a: NormalForm) -> u64
    ensures { result ≡ spec.area a.bounds }
{
    rectangle(a) - cuts(a)
}

// Document 01's cell count: the number of cells within any eight bounds. Refuses as `normalise` does.
#[tactic(auto, unfolding(crate::specs::Area::cell_count))]
pub fn count_cells(o: Octagon) -> Result<u64, Refusal>
    ensures { outcome result ≡ spec.cell_count o }
{
    Ok(area(NormalForm::of(o)?))
}
