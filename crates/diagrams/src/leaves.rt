//! The leaves of a diagram, and where the diagram is which.

ghost use Rattle.std.specs.Prelude.{◌≡◌, ◌+◌, ◌<◌, ℕ, Some, length, slice_get, IfOk, OnOk};
ghost use Rattle.diagrams.specs.Meaning.{Extends};
ghost use Rattle.diagrams.specs.Leaves.{AreGuarded, AreLeaves, Visits, visits_left};

use crate::{Diagram, Diagrams, GuardedLeaves, NoMemory, NodeForm};
use indexmap::IndexSet;

impl Diagrams {
    /// Notes the leaf that a diagram is, or the diagrams that its top leads to.
    fn visit(
        &self,
        v: Diagram,
        reached: &mut IndexSet<Diagram>,
        leaves: &mut IndexSet<usize>,
    ) -> Result<(), NoMemory>
        requires { v.0 < length self.now }
        ensures visits { OnOk result (Visits self.now v reached.old.keys leaves.old.keys reached.new.keys leaves.new.keys) }
        ensures fewer { OnOk result ((next : ℕ) → slice_get reached.old.keys next ≡ Some v → visits_left (next + 1) reached.new.keys < visits_left next reached.old.keys) }
    {
        match self.part(v) {
            NodeForm::Leaf(n) => {
                leaves.insert_full(n)?;
            }
            NodeForm::Node { yes, no, .. } => {
                reached.insert_full(yes)?;
                reached.insert_full(no)?;
            }
        }
        Ok(())
    }

    /// Each number that a diagram is somewhere, once. Each of its nodes is visited once.
    fn leaves_of(&self, d: Diagram) -> Result<IndexSet<usize>, NoMemory>
        requires { d.0 < length self.now }
        ensures { IfOk result (λ leaves. AreLeaves self.now d leaves.keys) }
    {
        let mut leaves = IndexSet::new(self.allocator());
        let mut reached = IndexSet::new(self.allocator());
        reached.insert_full(d)?;
        let mut next = 0;
        while next < reached.len() {
            let v = reached.as_slice()[next];
            self.visit(v, &mut reached, &mut leaves)?;
            next += 1;
        }
        Ok(leaves)
    }

    /// Each number that a diagram is somewhere, once, with the guard that holds exactly there. So the guards exclude each other,
    /// together they hold everywhere, and none is false.
    pub fn leaves_with_guards(&mut self, d: Diagram) -> Result<GuardedLeaves, NoMemory>
        requires { d.0 < length self.old }
        ensures kept { Extends self.old self.new }
        ensures guarded { IfOk result (λ guarded. AreGuarded self.new d guarded) }
    {
        let leaves = self.leaves_of(d)?;
        let mut guarded = GuardedLeaves::new(self.allocator());
        for leaf in leaves.as_slice() {
            let guard = self.where_it_is(d, *leaf)?;
            guarded.push(*leaf, guard)?;
        }
        Ok(guarded)
    }
}
