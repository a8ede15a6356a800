//! Names, each once.

ghost use Rattle.std.specs.Prelude.{◌≡◌, [], ℕ, List, IfOk, OnOk};
ghost use Rattle.js_tree.specs.Parts as parts;
ghost use Rattle.js_scope.specs.Hoisting as spec;

use indexmap::IndexSet;
use js_value::{NoMemory, Seq, Text};
use std::alloc::Global;
use std::marker::Model;

/// Names, each once, in the order in which they came first. To look one up doesn't take longer where there are more.
#[derive(Drop)]
pub struct Names {
    set: IndexSet<Text>,
}

impl Model for Names {
    ghost use Rattle.std.specs.Prelude.{ℕ, List};

    ghost Value = { List (List ℕ) };

    ghost view = { λ n. n.set.keys };
}

impl Names {
    /// No names.
    pub fn new(alloc: Global) -> Names
        ensures { result ≡ [] }
    {
        Names {
            set: IndexSet::new(alloc),
        }
    }

    /// Whether a name is among these.
    pub fn has(&self, name: &Text) -> bool
        ensures { result ≡ parts.is_among self.now name.now }
    {
        self.set.contains(name)
    }

    /// Puts a name behind the others, unless it is among them. `NoMemory` comes only where there is no memory.
    pub fn add(&mut self, alloc: Global, name: &Text) -> Result<(), NoMemory>
        ensures { OnOk result (self.new ≡ spec.add self.old name.now) }
    {
        if !self.has(name) {
            self.set.insert(name.copy(alloc)?)?;
        }
        Ok(())
    }

    /// These names as a set.
    #[tactic(auto, using(crate::proofs::Gathered::among_all))]
    pub fn of(alloc: Global, all: &[Text]) -> Result<Names, NoMemory>
        ensures { IfOk result (λ names. (q : List ℕ) → parts.is_among names q ≡ parts.is_among all.now q) }
    {
        let mut names = Names::new(alloc);
        for name in all {
            names.add(alloc, name)?;
        }
        Ok(names)
    }

    /// These names as a list.
    pub fn texts(&self, alloc: Global) -> Result<Seq<Text>, NoMemory>
        ensures { IfOk result (λ texts. texts ≡ self.now) }
    {
        let mut texts = Seq::new(alloc);
        for name in self.set.as_slice() {
            texts.push(name.copy(alloc)?)?;
        }
        Ok(texts)
    }
}
