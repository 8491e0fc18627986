// The octagon round a tree.
ghost use Rattle.koxirmeta_c.specs.Calls as calls;
ghost use Rattle.koxirmeta_c.specs.Clearances as clearances;

use crate::octagons::give;
use clearance::{Tree, around};

// The smallest octagon that holds every cell at the radius from (x, y) or less.
pub fn kx_clearance(x: i32, y: i32, radius: u32, out: &mut [i32]) -> u32
    ensures { calls.Hands (clearances.clearing x y radius out.old) calls.bounds_of out.old out.new result }
{
    give(around(Tree { x, y, radius }), true, out)
}
