// A refinement's answer as C is given it.
ghost use Rattle.std.specs.Prelude.{◌≡◌};
ghost use Rattle.refinement.specs.Told.{marks_said};

use crate::Refined;
use refusals::Refusal;

impl From<Result<u64, Refusal>> for Refined {
    ghost from_gives = { λ marks refined. refined ≡ marks_said marks };

    // The marks, or the refusal's number and place.
    fn from(marks: Result<u64, Refusal>) -> Self {
        match marks {
            Ok(marks) => Refined {
                refusal: 0,
                place: 0,
                marks,
            },
            Err(why) => Refined {
                refusal: why.number(),
                place: why.place(),
                marks: 0,
            },
        }
    }
}
