ghost use Rattle.std.specs.Prelude.{◌≡◌};

use js_value::{NoMemory, Place};
use std::alloc::{AllocError, AllocFailed};

/// What a text may have that isn't supported.
#[derive(Clone, Copy, Debug, PartialEq, Eq)]
pub enum Feature {
    With,
    Debugger,
    Label,
    RegularExpression,
    Eval,
    Arguments,
    OctalLiteral,
    OctalEscape,
    NumberLiteral,
    IdentifierEscape,
    FunctionInBlock,
    ForInInitialiser,
    DeleteName,
    StrictCode,
    ProtoName,
    AbstractForm,
    ResidualForm,
    AbstractType,
    OwnName,
    /// The text is one of the language, and the tool doesn't take it yet.
    NotBuilt,
}

/// Why a text isn't read, with the place of the fault.
#[derive(Clone, Copy, Debug, PartialEq, Eq)]
pub enum ReadRefused {
    Syntax(Place),
    Unsupported(Place, Feature),
    /// More parts are open than the limit allows.
    Nested(Place),
    NoMemory,
}

impl From<NoMemory> for ReadRefused {
    ghost use Rattle.js_tree.specs.declared.refusal.ReadRefused.TheVariants.{NoMemory};

    ghost from_gives = { λ _ e. e ≡ NoMemory };

    fn from(_: NoMemory) -> ReadRefused {
        ReadRefused::NoMemory
    }
}

impl From<AllocError> for ReadRefused {
    ghost use Rattle.js_tree.specs.declared.refusal.ReadRefused.TheVariants.{NoMemory};

    ghost from_gives = { λ _ e. e ≡ NoMemory };

    fn from(_: AllocError) -> ReadRefused {
        ReadRefused::NoMemory
    }
}

impl<T: Drop> From<AllocFailed<T>> for ReadRefused {
    ghost use Rattle.js_tree.specs.declared.refusal.ReadRefused.TheVariants.{NoMemory};

    ghost from_gives = { λ _ e. e ≡ NoMemory };

    fn from(_: AllocFailed<T>) -> ReadRefused {
        ReadRefused::NoMemory
    }
}
