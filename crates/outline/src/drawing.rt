// The octagon of an outline that closes. Its vertices are in 64 bits, wide enough for any start and any lengths.
ghost use Rattle.std.specs.Prelude.{◌≡◌, true};
ghost use Rattle.std.specs.Int.{w32};
ghost use Rattle.octagon.specs.NormalForm as form;
ghost use Rattle.octagon.specs.Answers.{outcome};
ghost use Rattle.octagon.specs.Widths.{Held};
ghost use Rattle.outline.specs.Tracing as tracing;

use crate::Outline;
use crate::walk::{Cell, vertex};
use octagon::{Octagon, Refusal, on_map};

// The bounds that four vertices reach, where they fit 32 bits: bounds k-1 and k meet in vertex k.
fn bounds_at(v1: Cell, v3: Cell, v5: Cell, v7: Cell) -> Octagon
    requires { Held w32 (tracing.bounds_at v1 v3 v5 v7) }
    ensures { result ≡ tracing.bounds_at v1 v3 v5 v7 }
{
    Octagon {
        c0: (-v1.y) as i32,
        c1: (v1.x - v1.y) as i32,
        c2: v3.x as i32,
        c3: (v3.x + v3.y) as i32,
        c4: v5.y as i32,
        c5: (v5.y - v5.x) as i32,
        c6: (-v7.x) as i32,
        c7: (-v7.x - v7.y) as i32,
    }
}

// The bounds of an outline as an answer: refused where they leave the map.
pub fn draw(o: Outline) -> Result<Octagon, Refusal>
    requires { form.is_on_map (tracing.drawn o) ≡ true → Held w32 (tracing.drawn o) }
    ensures { outcome result ≡ form.placed (tracing.drawn o) }
{
    let v1 = vertex(o, 1);
    let v3 = vertex(o, 3);
    let v5 = vertex(o, 5);
    let v7 = vertex(o, 7);
    if !on_map(-v1.y, v3.x, v5.y, -v7.x) {
        return Err(Refusal::OffMap);
    }
    Ok(bounds_at(v1, v3, v5, v7))
}
