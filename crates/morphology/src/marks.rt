// An octagon with a mark, exact or filled: how it is made, and taken apart.
ghost use Rattle.std.specs.Prelude.{◌≡◌};
ghost use Rattle.morphology.specs.Marks as marks;

use crate::Spread;
use octagon::Octagon;

impl Spread {
    // An octagon, marked filled or exact.
    pub fn new(octagon: Octagon, filled: bool) -> Self
        ensures { marks.marked_of result ≡ record { is_filled = filled; octagon = octagon } }
    {
        if filled {
            Spread::Filled(octagon)
        } else {
            Spread::Exact(octagon)
        }
    }

    // The octagon without its mark.
    pub fn octagon(self) -> Octagon
        ensures { result ≡ (marks.marked_of self).octagon }
    {
        match self {
            Spread::Exact(octagon) | Spread::Filled(octagon) => octagon,
        }
    }

    // Whether it is filled.
    pub fn is_filled(self) -> bool
        ensures { result ≡ (marks.marked_of self).is_filled }
    {
        matches!(self, Spread::Filled(_))
    }
}
