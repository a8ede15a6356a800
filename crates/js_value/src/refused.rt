use crate::{NoMemory, Why};

/// Why an operation on values has no answer: it leaves the profile, or there is no memory.
#[derive(Clone, Copy, Debug, PartialEq, Eq)]
pub enum Refused {
    Left(Why),
    NoMemory,
}

impl From<Why> for Refused {
    ghost use Rattle.std.specs.Prelude.{◌≡◌};
    ghost use Rattle.js_value.specs.declared.refused.Refused.TheVariants as refused;

    ghost from_gives = { λ why r. r ≡ refused.Left why };

    fn from(why: Why) -> Refused {
        Refused::Left(why)
    }
}

impl From<NoMemory> for Refused {
    ghost use Rattle.std.specs.Prelude.{◌≡◌};
    ghost use Rattle.js_value.specs.declared.refused.Refused.TheVariants as refused;

    ghost from_gives = { λ _ r. r ≡ refused.NoMemory };

    fn from(_: NoMemory) -> Refused {
        Refused::NoMemory
    }
}
