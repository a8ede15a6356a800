//! The answers to cases, found by their parts. What waits for a part stands in a list, so a diagram may be as deep as there are
//! conditions and takes no stack.

ghost use Rattle.std.specs.Prelude.{◌≡◌, ◌<◌, ◌+◌, length, IfOk, OnOk};
ghost use Rattle.diagrams.specs.Meaning.{Extends};
ghost use Rattle.diagrams.specs.Table.{StartsAt};
ghost use Rattle.diagrams.specs.Cases.{Answers, IsWithin};
ghost use Rattle.diagrams.specs.Search.{Descends, Earlier, HasTest, IsTested, IsPart, IsPartOfCase, IsSplit, Resumes, TellsOf, load, load_of, cost, weight, whole_of};

use crate::case::{Case, Known, Split, Waiting};
use crate::{CondNo, Diagram, Diagrams, NoMemory, NodeForm};
use std::collections::VecDeque;

impl Diagrams {
    /// What is known of a case without a search.
    fn known(&self, case: Case) -> Known
        requires { IsWithin self.now case }
        ensures { TellsOf self.now case result }
    {
        if case.same == case.other {
            return Known::Answer(case.same);
        }
        match self.part(case.value) {
            NodeForm::Leaf(n) => Known::Answer(case.where_it_reads(n)),
            NodeForm::Node { test, .. } => self.remembered_or(case, test),
        }
    }

    /// The answer that was remembered, or else the condition that the value tests first.
    fn remembered_or(&self, case: Case, test: CondNo) -> Known
        requires { HasTest self.now test.0 case.value }
        ensures { TellsOf self.now case result }
    {
        match self.remembered(case) {
            Some(d) => Known::Answer(d),
            None => Known::Tests(test),
        }
    }

    /// The earlier of a condition and the one that a diagram tests first.
    fn earlier(&self, test: CondNo, d: Diagram) -> CondNo
        requires { d.0 < length self.now }
        ensures { Earlier self.now test d result }
    {
        match self.part(d) {
            NodeForm::Node { test: other, .. } if other.0 < test.0 => other,
            _ => test,
        }
    }

    /// What a diagram that tests no earlier condition is where a condition has this truth.
    fn part_where(&self, d: Diagram, test: CondNo, truth: bool) -> Diagram
        requires within { d.0 < length self.now }
        requires starts { StartsAt self.now test.0 d }
        ensures { IsPart self.now d test truth result }
    {
        match self.part(d) {
            NodeForm::Leaf(_) => d,
            NodeForm::Node {
                test: other,
                yes,
                no,
            } => {
                if other != test {
                    d
                } else if truth {
                    yes
                } else {
                    no
                }
            }
        }
    }

    /// What a case is where a condition has this truth, that none of its diagrams tests a condition before.
    fn case_where(&self, case: Case, test: CondNo, truth: bool) -> Case
        requires within { IsWithin self.now case }
        requires value { StartsAt self.now test.0 case.value }
        requires same { StartsAt self.now test.0 case.same }
        requires other { StartsAt self.now test.0 case.other }
        requires tested { IsTested self.now test.0 case }
        ensures { IsPartOfCase self.now case test truth result }
    {
        Case {
            value: self.part_where(case.value, test, truth),
            leaf: case.leaf,
            same: self.part_where(case.same, test, truth),
            other: self.part_where(case.other, test, truth),
        }
    }

    /// A case whose value tests this condition first, divided by the first condition that its diagrams test.
    fn split(&self, case: Case, own: CondNo) -> Split
        requires within { IsWithin self.now case }
        requires own { HasTest self.now own.0 case.value }
        ensures split { IsSplit self.now result }
        ensures whole { result.whole ≡ case }
    {
        let test = self.earlier(self.earlier(own, case.same), case.other);
        Split {
            whole: case,
            test,
            yes: self.case_where(case, test, true),
            no: self.case_where(case, test, false),
        }
    }

    /// The first answer that is known of a case or of its parts, with those that then wait for it put before the others.
    fn descend(&self, waiting: &mut VecDeque<Waiting>, case: Case) -> Result<Diagram, NoMemory>
        requires { IsWithin self.now case }
        ensures goes { IfOk result (λ d. Descends self.now waiting.old.items case waiting.new.items d) }
        ensures lighter { OnOk result (load waiting.new.items < load waiting.old.items + cost (weight case)) }
    {
        let mut case = case;
        loop {
            match self.known(case) {
                Known::Answer(d) => return Ok(d),
                Known::Tests(own) => {
                    let split = self.split(case, own);
                    waiting.push_front(Waiting::Yes(split))?;
                    case = split.yes;
                }
            }
        }
    }

    /// Makes and remembers the answer to a divided case.
    fn finish(&mut self, split: Split, yes: Diagram, no: Diagram) -> Result<Diagram, NoMemory>
        requires split { IsSplit self.old split }
        requires yes { Answers self.old split.yes yes }
        requires no { Answers self.old split.no no }
        ensures kept { Extends self.old self.new }
        ensures answered { IfOk result (λ d. Answers self.new split.whole d) }
    {
        let d = self.node(split.test, yes, no)?;
        self.remember(split.whole, d)?;
        Ok(d)
    }

    /// Goes on where a divided case has the answer that it waits for.
    fn resume(
        &mut self,
        waiting: &mut VecDeque<Waiting>,
        first: Waiting,
        found: Diagram,
    ) -> Result<Diagram, NoMemory>
        requires { Resumes self.old first found }
        ensures kept { Extends self.old self.new }
        ensures goes { IfOk result (λ d. Descends self.new waiting.old.items (whole_of first) waiting.new.items d) }
        ensures lighter { OnOk result (load waiting.new.items < load_of first + load waiting.old.items) }
    {
        match first {
            Waiting::Yes(split) => {
                waiting.push_front(Waiting::No(split, found))?;
                self.descend(waiting, split.no)
            }
            Waiting::No(split, yes) => self.finish(split, yes, found),
        }
    }

    /// The answer to a case. It takes time in proportion to the cases that it is divided into and that weren't answered before.
    pub(crate) fn answer(&mut self, case: Case) -> Result<Diagram, NoMemory>
        requires { IsWithin self.old case }
        ensures kept { Extends self.old self.new }
        ensures answered { IfOk result (λ d. Answers self.new case d) }
    {
        let mut waiting = VecDeque::new(self.allocator());
        let mut found = self.descend(&mut waiting, case)?;
        while let Some(first) = waiting.pop_front() {
            found = self.resume(&mut waiting, first, found)?;
        }
        Ok(found)
    }
}
