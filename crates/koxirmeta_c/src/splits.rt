// The decomposition into thirteen pieces (document 01's split).
// Each call is a function of its own, since C calls it by its name.
ghost use Rattle.std.specs.Prelude.{◌≡◌};
ghost use Rattle.koxirmeta_c.specs.Calls as calls;
ghost use Rattle.koxirmeta_c.specs.Splits as splits;

use crate::giving::give_start_and;
use crate::octagons::octagon_in;
use decomposition::{Split, decompose};

// A start and thirteen counts, of a split.
#[tactic(auto, unfolding(crate::specs::Outlines::start))]
fn parts_of(s: Split) -> ([i32; 2], [u32; 13])
    ensures { result ≡ splits.split_parts s }
{
    ([s.start.i, s.start.j], s.counts.to_array())
}

// The start cell and the counts of the thirteen pieces of eight bounds.
pub fn kx_decompose(bounds: &[i32], start: &mut [i32], counts: &mut [u32]) -> u32
    ensures { calls.Hands (splits.splitting bounds.now start.old counts.old) splits.split_parts (start.old, counts.old) (start.new, counts.new) result }
{
    give_start_and(
        decompose(octagon_in(bounds)).map(parts_of),
        bounds.len() == 8,
        start,
        counts,
    )
}
