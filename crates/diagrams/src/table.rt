//! The nodes that diagrams share, and the answers that were found.

ghost use Rattle.std.specs.Prelude.{◌≡◌, ◌<◌, ◌↔◌, ℕ, [], Some, length, slice_get, IfOk, IsTrue};
ghost use Rattle.diagrams.specs.Meaning.{Assignment, DependsBehind, chosen_by, Extends, Means, form_meaning, meaning, tested};
ghost use Rattle.diagrams.specs.Table.{IsTable, Stands};
ghost use Rattle.diagrams.specs.Cases.{Answers, IfKnown};

use crate::{Case, Chosen, CondNo, Diagram, NoMemory, NodeForm};
use indexmap::{IndexMap, IndexSet};
use std::alloc::Global;
use std::marker::Model;

/// The nodes of diagrams, each by its position. A node that stands there isn't put there again.
#[derive(Drop)]
pub struct Diagrams {
    nodes: IndexSet<NodeForm>,
    answers: IndexMap<Case, Diagram>,
}

impl Model for Diagrams {
    ghost use Rattle.diagrams.specs.Meaning.{Nodes};

    ghost Value = { Nodes };

    ghost use Rattle.diagrams.specs.Table.{IsTable};
    ghost use Rattle.diagrams.specs.Cases.{AreRight};

    ghost view = { λ d. d.nodes.keys };

    ghost invariant = { λ d. IsTable d.nodes.keys × AreRight d.nodes.keys d.answers.entries };
}

impl Diagrams {
    /// No diagrams.
    pub fn new(alloc: Global) -> Diagrams
        ensures { result ≡ [] }
    {
        Diagrams {
            nodes: IndexSet::new(alloc),
            answers: IndexMap::new(alloc),
        }
    }

    /// What the nodes, which are a table, take memory from.
    pub(crate) fn allocator(&self) -> Global
        ensures { IsTable self.now }
    {
        *self.nodes.allocator()
    }

    /// The top of a diagram.
    pub fn part(&self, d: Diagram) -> NodeForm
        requires { d.0 < length self.now }
        ensures top { slice_get self.now d.0 ≡ Some result }
        ensures stands { Stands self.now d.0 result }
        ensures means { Means self.now d (λ later σ. form_meaning later σ result) }
        ensures table { IsTable self.now }
    {
        match self.nodes.get_index(d.0) {
            Some(form) => *form,
            None => unreachable!(),
        }
    }

    /// The diagram whose top this is, made where there is none.
    fn with_top(&mut self, form: NodeForm) -> Result<Diagram, NoMemory>
        requires { Stands self.old (length self.old) form }
        ensures kept { Extends self.old self.new }
        ensures made { IfOk result (λ d. slice_get self.new d.0 ≡ Some form) }
        ensures table { IsTable self.new }
    {
        let (number, _) = self.nodes.insert_full(form)?;
        Ok(Diagram(number))
    }

    /// The diagram that is this number everywhere.
    pub fn leaf(&mut self, n: usize) -> Result<Diagram, NoMemory>
        ensures kept { Extends self.old self.new }
        ensures made { IfOk result (λ d. Means self.new d (λ later σ. n)) }
    {
        self.with_top(NodeForm::Leaf(n))
    }

    /// The diagram that is one diagram where a condition holds and another where it doesn't. Both depend on later conditions alone.
    pub fn node(&mut self, test: CondNo, yes: Diagram, no: Diagram) -> Result<Diagram, NoMemory>
        requires yes_within { yes.0 < length self.old }
        requires no_within { no.0 < length self.old }
        requires yes_behind { DependsBehind self.old test.0 yes }
        requires no_behind { DependsBehind self.old test.0 no }
        ensures kept { Extends self.old self.new }
        ensures made { IfOk result (λ d. Means self.new d (tested test yes no)) }
    {
        if yes == no {
            return Ok(yes);
        }
        let _nodes = &self.nodes;
        self.with_top(NodeForm::Node { test, yes, no })
    }

    /// What a diagram is where conditions have this truth.
    pub fn at(&self, d: Diagram, chosen: &Chosen) -> usize
        requires { d.0 < length self.now }
        ensures { result ≡ meaning self.now (chosen_by chosen.now) d }
    {
        let mut here = d;
        loop {
            match self.part(here) {
                NodeForm::Leaf(n) => return n,
                NodeForm::Node { test, yes, no } => here = chosen.choose(test, yes, no),
            }
        }
    }

    /// Whether a diagram is this number everywhere.
    fn is_everywhere(&self, d: Diagram, n: usize) -> bool
        requires { d.0 < length self.now }
        ensures { IsTrue result ↔ ((σ : Assignment) → meaning self.now σ d ≡ n) }
    {
        match self.part(d) {
            NodeForm::Leaf(m) => m == n,
            NodeForm::Node { .. } => false,
        }
    }

    /// Whether a diagram is 0 everywhere.
    pub fn is_false(&self, g: Diagram) -> bool
        requires { g.0 < length self.now }
        ensures { IsTrue result ↔ ((σ : Assignment) → meaning self.now σ g ≡ 0) }
    {
        self.is_everywhere(g, 0)
    }

    /// Whether a diagram is 1 everywhere.
    pub fn is_true(&self, g: Diagram) -> bool
        requires { g.0 < length self.now }
        ensures { IsTrue result ↔ ((σ : Assignment) → meaning self.now σ g ≡ 1) }
    {
        self.is_everywhere(g, 1)
    }

    /// Whether two diagrams mean the same.
    pub fn same(&self, d: Diagram, e: Diagram) -> bool
        requires d_within { d.0 < length self.now }
        requires e_within { e.0 < length self.now }
        ensures { IsTrue result ↔ ((σ : Assignment) → meaning self.now σ d ≡ meaning self.now σ e) }
    {
        let _nodes = &self.nodes;
        d == e
    }

    /// The answer to a case that was remembered.
    pub(crate) fn remembered(&self, case: Case) -> Option<Diagram>
        ensures { IfKnown self.now case result }
    {
        self.answers.get(&case).copied()
    }

    /// Remembers the answer to a case.
    pub(crate) fn remember(&mut self, case: Case, d: Diagram) -> Result<(), NoMemory>
        requires { Answers self.old case d }
        ensures { self.new ≡ self.old }
    {
        self.answers.insert(case, d)?;
        Ok(())
    }
}
