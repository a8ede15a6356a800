//! Environments (10.2): scopes in an arena. A scope never changes once it is made.

ghost use Rattle.std.specs.Prelude.{◌≡◌, [], ◌∷◌, ◌++◌, Some, None, length, OnOk, OnErr, IfOk, position};
ghost use Rattle.js_value.specs.Conversions.{is_same_text};
ghost use Rattle.plain_heap.specs.Heap.{resolve};
ghost use Rattle.heap_values.specs.Meaning.{environment_at};
ghost use Rattle.heap_arena.specs.Environments.{environments, surrounding, own_names};

use crate::arena::get_at;
use heap_values::{CellNo, ScopeNo};
use js_value::{NoMemory, Seq, Text, Texts};
use std::alloc::Global;
use std::marker::Model;

/// A list of numbers of cells.
pub type CellNos = Seq<CellNo>;

/// The names that some code binds with their cells, and the scope around it.
#[derive(Drop)]
pub struct Scope {
    pub outer: Option<ScopeNo>,
    pub names: Texts,
    pub cells: CellNos,
}

impl Scope {
    /// The cell that a name is bound to in this scope itself.
    fn own(&self, name: &Text) -> Option<CellNo>
        ensures { result ≡ resolve (own_names self.now) name.now }
    {
        match place_of(self.names.as_slice(), name) {
            Some(i) => get_at(self.cells.as_slice(), i).copied(),
            None => None,
        }
    }
}

/// Where a name stands first among names.
fn place_of(names: &[Text], name: &Text) -> Option<usize>
    ensures { result ≡ position (λ n. is_same_text n name.now) names.now }
{
    names.iter().position(|n| *n == *name)
}

/// Scopes, each seen as the environment that it stands for.
#[derive(Drop)]
pub struct Scopes {
    scopes: Vec<Scope>,
}

impl Model for Scopes {
    ghost use Rattle.std.specs.Prelude.{List};
    ghost use Rattle.plain_heap.specs.Heap.{Environment};

    ghost Value = { List Environment };

    ghost use Rattle.heap_arena.specs.Environments.{environments};

    ghost view = { λ s. environments s.scopes.items };
}

impl Scopes {
    /// No scopes.
    pub fn new(alloc: Global) -> Scopes
        ensures { result ≡ [] }
    {
        Scopes {
            scopes: Vec::new(alloc),
        }
    }

    /// How many scopes there are.
    pub fn len(&self) -> usize
        ensures { result ≡ length self.now }
    {
        self.scopes.len()
    }

    /// A new scope, inside of one that is there or of none.
    pub fn push(&mut self, scope: Scope) -> Result<ScopeNo, NoMemory>
        ensures number { IfOk result (λ s. s ≡ length self.old) }
        ensures made { OnOk result (self.new ≡ self.old ++ (own_names scope ++ surrounding self.old scope.outer) ∷ []) }
        ensures err { OnErr result (self.new ≡ self.old) }
    {
        let number = self.scopes.len();
        self.scopes.push(scope)?;
        Ok(ScopeNo(number))
    }

    /// The cell that a name is bound to in a scope or in one around it (10.2.2.1).
    pub fn resolve(&self, s: ScopeNo, name: &Text) -> Option<CellNo>
        ensures { result ≡ resolve (environment_at self.now s) name.now }
    {
        resolve_in(self.scopes.as_slice(), s, name)
    }
}

/// The cell of a name, by the scopes that were made up to some point.
fn resolve_in(scopes: &[Scope], s: ScopeNo, name: &Text) -> Option<CellNo>
    ensures { result ≡ resolve (environment_at (environments scopes.now) s) name.now }
{
    let mut older = scopes;
    let mut at = s;
    while let Some(scope) = get_at(older, at.index()) {
        if let Some(c) = scope.own(name) {
            return Some(c);
        }
        match scope.outer {
            Some(outer) => {
                older = &older[..at.index()];
                at = outer;
            }
            None => return None,
        }
    }
    None
}
