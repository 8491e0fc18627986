// Whether two outlines are one.
ghost use Rattle.std.specs.Prelude.{◌≡◌};
ghost use Rattle.outline.specs.Sameness.{same_outline};

use crate::Outline;

// Whether two outlines have the same start and the same sides: `==`, under the name that README gives it, with the contract by its definition.
pub fn same_outline(o: Outline, p: Outline) -> bool
    ensures { result ≡ same_outline o p }
{
    o == p
}
