use js_value::{NoMemory, Primitive, Seq, Text};
use std::alloc::AllocError;

/// What an item gives: an input under its name, or the next answer of the host under the empty name.
#[derive(Debug, Drop)]
pub struct Item {
    pub name: Text,
    pub value: Primitive,
    /// Whether the answer is thrown.
    pub threw: bool,
}

/// A list of items.
pub type Items = Seq<Item>;

/// The items of each of some worlds.
pub type Worlds = Seq<Items>;

/// What the program is to do, with a budget of steps.
#[derive(Debug, Drop)]
pub enum Command {
    /// Evaluate a script.
    Eval(u64),
    /// Run a script plainly in the world of the items.
    Run(u64, Items),
    /// Compare two scripts in each of the worlds.
    Check(u64, Worlds),
}

/// Why words give no command.
#[derive(Clone, Copy, Debug, PartialEq, Eq)]
pub enum WordsRefused {
    Usage,
    NoMemory,
}

impl From<NoMemory> for WordsRefused {
    ghost use Rattle.std.specs.Prelude.{◌≡◌};
    ghost use Rattle.pp_words.specs.declared.command.WordsRefused.TheVariants as refused;

    ghost from_gives = { λ _ r. r ≡ refused.NoMemory };

    fn from(_: NoMemory) -> WordsRefused {
        WordsRefused::NoMemory
    }
}

impl From<AllocError> for WordsRefused {
    ghost use Rattle.std.specs.Prelude.{◌≡◌};
    ghost use Rattle.pp_words.specs.declared.command.WordsRefused.TheVariants as refused;

    ghost from_gives = { λ _ r. r ≡ refused.NoMemory };

    fn from(_: AllocError) -> WordsRefused {
        WordsRefused::NoMemory
    }
}
