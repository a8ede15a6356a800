ghost use Rattle.std.specs.Prelude.{◌≡◌, ◌++◌, ◌<◌, [], ◌∷◌, Some, length, slice_get, OnErr, OnOk};

use crate::{Diagram, NoMemory};
use std::alloc::Global;
use std::marker::Model;

/// Leaves of a diagram, each with the guard that holds where the diagram is this leaf.
#[derive(Drop)]
pub struct GuardedLeaves {
    leaves: Vec<(usize, Diagram)>,
}

impl Model for GuardedLeaves {
    ghost use Rattle.std.specs.Prelude.{List, ℕ};
    ghost use Rattle.diagrams.specs.declared.node.Diagram.{Diagram as Shared};

    ghost Value = { List (ℕ × Shared) };

    ghost view = { λ g. g.leaves.items };
}

impl GuardedLeaves {
    /// No leaves.
    pub fn new(alloc: Global) -> GuardedLeaves
        ensures { result ≡ [] }
    {
        GuardedLeaves {
            leaves: Vec::new(alloc),
        }
    }

    /// Puts a leaf at the end, or changes nothing.
    pub fn push(&mut self, leaf: usize, guard: Diagram) -> Result<(), NoMemory>
        ensures ok { OnOk result (self.new ≡ self.old ++ (leaf, guard) ∷ []) }
        ensures err { OnErr result (self.new ≡ self.old) }
    {
        self.leaves.push((leaf, guard))?;
        Ok(())
    }

    /// How many leaves there are.
    pub fn len(&self) -> usize
        ensures { result ≡ length self.now }
    {
        self.leaves.len()
    }

    /// The leaf at a position, with its guard.
    pub fn at(&self, i: usize) -> (usize, Diagram)
        requires { i < length self.now }
        ensures { slice_get self.now i ≡ Some result }
    {
        self.leaves[i]
    }
}
