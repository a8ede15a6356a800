//! Diagrams made of others. A guard holds where it is another number than 0, and the guards that are made are 0 and 1.

ghost use Rattle.std.specs.Prelude.{◌<◌, length, IfOk};
ghost use Rattle.diagrams.specs.Meaning.{Extends, Means, both, negated, reads_as, selected};

use crate::{Case, Diagram, Diagrams, NoMemory};

impl Diagrams {
    /// One diagram where a guard holds, and another where it doesn't.
    pub fn select(&mut self, g: Diagram, a: Diagram, b: Diagram) -> Result<Diagram, NoMemory>
        requires g_within { g.0 < length self.old }
        requires a_within { a.0 < length self.old }
        requires b_within { b.0 < length self.old }
        ensures kept { Extends self.old self.new }
        ensures made { IfOk result (λ d. Means self.new d (selected g a b)) }
    {
        self.answer(Case {
            value: g,
            leaf: 0,
            same: b,
            other: a,
        })
    }

    /// Where both of two guards hold.
    pub fn and(&mut self, g: Diagram, h: Diagram) -> Result<Diagram, NoMemory>
        requires g_within { g.0 < length self.old }
        requires h_within { h.0 < length self.old }
        ensures kept { Extends self.old self.new }
        ensures made { IfOk result (λ d. Means self.new d (both g h)) }
    {
        let never = self.leaf(0)?;
        self.select(g, h, never)
    }

    /// Where a guard doesn't hold.
    pub fn not(&mut self, g: Diagram) -> Result<Diagram, NoMemory>
        requires { g.0 < length self.old }
        ensures kept { Extends self.old self.new }
        ensures made { IfOk result (λ d. Means self.new d (negated g)) }
    {
        let never = self.leaf(0)?;
        let always = self.leaf(1)?;
        self.select(g, never, always)
    }

    /// Where a diagram is this number.
    pub(crate) fn where_it_is(&mut self, d: Diagram, leaf: usize) -> Result<Diagram, NoMemory>
        requires { d.0 < length self.old }
        ensures kept { Extends self.old self.new }
        ensures made { IfOk result (λ g. Means self.new g (reads_as d leaf)) }
    {
        let never = self.leaf(0)?;
        let always = self.leaf(1)?;
        self.answer(Case {
            value: d,
            leaf,
            same: always,
            other: never,
        })
    }
}
