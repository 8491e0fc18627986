// Outlines (boundary codes) in slices: a start of two numbers, and eight sides.
ghost use Rattle.std.specs.Prelude.{◌≡◌, length};
ghost use Rattle.koxirmeta_c.specs.Outlines as outlines;

use outline::Outline;

// The outline of a start and eight sides.
pub fn outline_in(start: &[i32], sides: &[u32]) -> Outline
    requires { (length start.now ≡ 2) × (length sides.now ≡ 8) }
    ensures { result ≡ outlines.outline_in start.now sides.now }
{
    Outline {
        i: start[0],
        j: start[1],
        n0: sides[0],
        n1: sides[1],
        n2: sides[2],
        n3: sides[3],
        n4: sides[4],
        n5: sides[5],
        n6: sides[6],
        n7: sides[7],
    }
}

// A start and eight sides, of an outline.
#[tactic(auto, unfolding(crate::specs::Outlines::start))]
pub fn parts_of(o: Outline) -> ([i32; 2], [u32; 8])
    ensures { result ≡ outlines.outline_parts o }
{
    ([o.i, o.j], o.sides())
}
