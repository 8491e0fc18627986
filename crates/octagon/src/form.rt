// Octagons whose bounds are in normal form and on the map, by their type: what is worked out of one need not ask for that.
ghost use Rattle.std.specs.Prelude.{◌≡◌};
ghost use Rattle.octagon.specs.Outcome.{accepted};
ghost use Rattle.octagon.specs.NormalForm.{normalised};

use crate::{Octagon, Refusal, bounds};

// Bounds that `normalise` answers as they are.
#[derive(Clone, Copy)]
pub struct NormalForm {
    pub bounds: Octagon,
    pub ghost is_normal: { normalised bounds ≡ accepted bounds },
}

impl NormalForm {
    ghost use Rattle.octagon.specs.Forms.{form_outcome};

    // The normal form of any eight bounds. Refuses as `normalise` does.
    pub fn of(o: Octagon) -> Result<NormalForm, Refusal>
        ensures { form_outcome result ≡ normalised o }
    {
        let bounds = bounds::normalise_bounds(bounds::widen(o))?;
        Ok(NormalForm { bounds })
    }
}
