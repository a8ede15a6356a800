ghost use Rattle.std.specs.Prelude.{◌≡◌, ◌++◌, [], ◌∷◌, if◌then◌else◌, OnErr, OnOk};
ghost use Rattle.diagrams.specs.Meaning.{chosen_by};

use crate::{CondNo, Diagram, NoMemory};
use std::alloc::Global;
use std::marker::Model;

/// The truth of conditions, by their numbers. Those past the end are false.
#[derive(Drop)]
pub struct Chosen {
    truths: Vec<bool>,
}

impl Model for Chosen {
    ghost use Rattle.std.specs.Prelude.{List, Bool};

    ghost Value = { List Bool };

    ghost view = { λ c. c.truths.items };
}

impl Chosen {
    /// All conditions are false.
    pub fn new(alloc: Global) -> Chosen
        ensures { result ≡ [] }
    {
        Chosen {
            truths: Vec::new(alloc),
        }
    }

    /// Gives the next condition its truth, or changes nothing.
    pub fn push(&mut self, truth: bool) -> Result<(), NoMemory>
        ensures ok { OnOk result (self.new ≡ self.old ++ truth ∷ []) }
        ensures err { OnErr result (self.new ≡ self.old) }
    {
        self.truths.push(truth)?;
        Ok(())
    }

    /// Whether a condition is true.
    pub fn holds(&self, test: CondNo) -> bool
        ensures { result ≡ chosen_by self.now test.0 }
    {
        self.truths.get(test.0).copied().unwrap_or(false)
    }

    /// One diagram where a condition is true, and another where it is false.
    pub(crate) fn choose(&self, test: CondNo, yes: Diagram, no: Diagram) -> Diagram
        ensures { result ≡ (if chosen_by self.now test.0 then yes else no) }
    {
        if self.holds(test) { yes } else { no }
    }
}
