//! The numbers of what a heap holds, each counted from 0 in the order of creation.

ghost use Rattle.std.specs.Prelude.{◌≡◌};

use std::marker::Model;

/// The number of an object.
#[derive(Clone, Copy, Debug, PartialEq, Eq)]
pub struct ObjNo(pub usize);

impl Model for ObjNo {
    ghost use Rattle.std.specs.Prelude.{ℕ};

    ghost Value = { ℕ };

    ghost view = { λ o. o.0 };

    ghost inverse = { λ n. record { 0 = n } };
}

impl ObjNo {
    pub fn index(self) -> usize
        ensures { result ≡ self }
    {
        self.0
    }
}

/// The number of a cell, which is what a name is bound to.
#[derive(Clone, Copy, Debug, PartialEq, Eq)]
pub struct CellNo(pub usize);

impl Model for CellNo {
    ghost use Rattle.std.specs.Prelude.{ℕ};

    ghost Value = { ℕ };

    ghost view = { λ c. c.0 };

    ghost inverse = { λ n. record { 0 = n } };
}

impl CellNo {
    pub fn index(self) -> usize
        ensures { result ≡ self }
    {
        self.0
    }
}

/// The number of a scope, which stands for all the names around some code.
#[derive(Clone, Copy, Debug, PartialEq, Eq)]
pub struct ScopeNo(pub usize);

impl Model for ScopeNo {
    ghost use Rattle.std.specs.Prelude.{ℕ};

    ghost Value = { ℕ };

    ghost view = { λ s. s.0 };

    ghost inverse = { λ n. record { 0 = n } };
}

impl ScopeNo {
    pub fn index(self) -> usize
        ensures { result ≡ self }
    {
        self.0
    }
}
