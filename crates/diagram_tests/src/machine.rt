//! Diagrams made by formulas in which an operation stands behind its operands.

ghost use Rattle.std.specs.Prelude.{◌≡◌, ◌<◌, length, IfOk};
ghost use Rattle.diagrams.specs.Meaning.{Extends, Means, tested};
ghost use Rattle.diagram_tests.specs.Kept.{AreWithin, GuardsAreWithin};

use diagrams::{Chosen, CondNo, Diagram, Diagrams, GuardedLeaves, NoMemory};
use std::alloc::Global;
use std::test::Fail;

/// A stack of diagrams.
#[derive(Drop)]
pub struct Machine {
    diagrams: Diagrams,
    stack: Vec<Diagram>,
    ghost kept: { AreWithin diagrams stack.items },
}

/// The diagram that is 1 where a condition holds.
fn condition(diagrams: &mut Diagrams, c: usize) -> Result<Diagram, NoMemory>
    ensures kept { Extends diagrams.old diagrams.new }
    ensures within { IfOk result (λ d. d.0 < length diagrams.new) }
{
    let never = diagrams.leaf(0)?;
    let always = diagrams.leaf(1)?;
    diagrams.node(CondNo(c), always, never)
}

/// The number after that of each of these leaves, where its guard holds.
fn after_each(diagrams: &mut Diagrams, guarded: &GuardedLeaves) -> Result<Diagram, NoMemory>
    requires { GuardsAreWithin diagrams.old guarded.now }
    ensures kept { Extends diagrams.old diagrams.new }
    ensures within { IfOk result (λ sum. sum.0 < length diagrams.new) }
{
    let mut sum = diagrams.leaf(0)?;
    for i in 0..guarded.len() {
        let (n, g) = guarded.at(i);
        let next = diagrams.leaf(n.checked_add(1).ok_or(NoMemory)?)?;
        sum = diagrams.select(g, next, sum)?;
    }
    Ok(sum)
}

/// A diagram with one more for each leaf.
fn one_more(diagrams: &mut Diagrams, d: Diagram) -> Result<Diagram, NoMemory>
    requires { d.0 < length diagrams.old }
    ensures kept { Extends diagrams.old diagrams.new }
    ensures within { IfOk result (λ sum. sum.0 < length diagrams.new) }
{
    let guarded = diagrams.leaves_with_guards(d)?;
    after_each(diagrams, &guarded)
}

/// How many leaves there are, how many of their guards hold, and the last such leaf.
fn held(diagrams: &Diagrams, guarded: &GuardedLeaves, chosen: &Chosen) -> (usize, usize, usize)
    requires { GuardsAreWithin diagrams.now guarded.now }
{
    let mut holding = 0;
    let mut last = 0;
    for i in 0..guarded.len() {
        let (n, g) = guarded.at(i);
        if diagrams.at(g, chosen) == 1 {
            holding += 1;
            last = n;
        }
    }
    (guarded.len(), holding, last)
}

impl Machine {
    pub fn new(alloc: Global) -> Machine {
        Machine {
            diagrams: Diagrams::new(alloc),
            stack: Vec::new(alloc),
        }
    }

    fn pop(&mut self) -> Result<Diagram, Fail>
        ensures same { self.new.diagrams ≡ self.old.diagrams }
        ensures within { IfOk result (λ d. d.0 < length self.old.diagrams) }
    {
        Ok(self.stack.pop().ok_or("no operand")?)
    }

    fn put(&mut self, d: Diagram) -> Result<(), Fail>
        requires { d.0 < length self.old.diagrams }
        ensures { self.new.diagrams ≡ self.old.diagrams }
    {
        self.stack.push(d)?;
        Ok(())
    }

    pub fn leaf(&mut self, n: usize) -> Result<(), Fail> {
        let d = self.diagrams.leaf(n)?;
        self.put(d)
    }

    pub fn condition(&mut self, c: usize) -> Result<(), Fail> {
        let d = condition(&mut self.diagrams, c)?;
        self.put(d)
    }

    pub fn not(&mut self) -> Result<(), Fail> {
        let g = self.pop()?;
        let d = self.diagrams.not(g)?;
        self.put(d)
    }

    pub fn and(&mut self) -> Result<(), Fail> {
        let h = self.pop()?;
        let g = self.pop()?;
        let d = self.diagrams.and(g, h)?;
        self.put(d)
    }

    /// Of three operands the first is the guard.
    pub fn select(&mut self) -> Result<(), Fail> {
        let b = self.pop()?;
        let a = self.pop()?;
        let g = self.pop()?;
        let d = self.diagrams.select(g, a, b)?;
        self.put(d)
    }

    /// One more where a condition holds.
    pub fn count(&mut self, c: usize) -> Result<(), Fail> {
        let sum = self.pop()?;
        let more = one_more(&mut self.diagrams, sum)?;
        let g = condition(&mut self.diagrams, c)?;
        let d = self.diagrams.select(g, more, sum)?;
        self.put(d)
    }

    /// The other way where a condition holds.
    pub fn flip(&mut self, c: usize) -> Result<(), Fail> {
        let even = self.pop()?;
        let odd = self.diagrams.not(even)?;
        let g = condition(&mut self.diagrams, c)?;
        let d = self.diagrams.select(g, odd, even)?;
        self.put(d)
    }

    /// What the diagram that was made last is.
    pub fn at(&mut self, chosen: &Chosen) -> Result<usize, Fail> {
        let d = self.pop()?;
        let n = self.diagrams.at(d, chosen);
        self.put(d)?;
        Ok(n)
    }

    /// How many leaves the diagram that was made last has, how many of their guards hold, and the last such leaf.
    pub fn leaves(&mut self, chosen: &Chosen) -> Result<(usize, usize, usize), Fail> {
        let d = self.pop()?;
        let guarded = self.diagrams.leaves_with_guards(d)?;
        self.put(d)?;
        Ok(held(&self.diagrams, &guarded, chosen))
    }

    /// How many nodes were made, with one more.
    pub fn nodes(&mut self) -> Result<usize, Fail> {
        Ok(self.diagrams.leaf(usize::MAX)?.0)
    }

    /// Whether the two diagrams that were made last are one. They go.
    pub fn same(&mut self) -> Result<bool, Fail> {
        let d = self.pop()?;
        let e = self.pop()?;
        Ok(self.diagrams.same(d, e))
    }
}
