// Diagonal rows by their normalised bounds.
ghost use Rattle.std.specs.Prelude.{◌≡◌};
ghost use Rattle.morphology.specs.Operations as operations;

use integers::sum;
use octagon::Octagon;

// Whether opposite bounds p and q leave one line, and s and t more than one.
fn is_row(p: i32, q: i32, s: i32, t: i32) -> bool
    ensures { result ≡ operations.is_row p q s t }
{
    (sum(p, q) <= 0) & (1 <= sum(s, t))
}

// Whether normalised bounds are those of a row on a line x - y.
#[tactic(auto, unfolding(crate::specs::Operations::is_rising))]
fn is_rising(o: Octagon) -> bool
    ensures { result ≡ operations.is_rising o }
{
    is_row(o.c1, o.c5, o.c3, o.c7)
}

// Whether normalised bounds are those of a row on a line x + y.
#[tactic(auto, unfolding(crate::specs::Operations::is_falling))]
fn is_falling(o: Octagon) -> bool
    ensures { result ≡ operations.is_falling o }
{
    is_row(o.c3, o.c7, o.c1, o.c5)
}

// Whether two octagons are diagonal rows, one of each kind.
#[tactic(auto, unfolding(crate::specs::Operations::are_opposed))]
pub fn are_opposed(a: Octagon, b: Octagon) -> bool
    ensures { result ≡ operations.are_opposed a b }
{
    (is_rising(a) & is_falling(b)) | (is_falling(a) & is_rising(b))
}
