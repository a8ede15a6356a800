ghost use Rattle.std.specs.Prelude.{◌≡◌, ◌==◌, if◌then◌else◌};

use crate::{CondNo, Diagram};

/// A question that is asked of diagrams: which diagram means what one does where a value reads as this leaf, and what another
/// does elsewhere.
#[derive(Clone, Copy, Debug, PartialEq, Eq, Hash)]
pub struct Case {
    pub value: Diagram,
    pub leaf: usize,
    pub same: Diagram,
    pub other: Diagram,
}

impl Case {
    /// The diagram where the value reads as this number.
    pub fn where_it_reads(self, n: usize) -> Diagram
        ensures { result ≡ (if n == self.leaf then self.same else self.other) }
    {
        if n == self.leaf {
            self.same
        } else {
            self.other
        }
    }
}

/// A case divided by the first condition that its diagrams test.
#[derive(Clone, Copy, Debug)]
pub struct Split {
    pub whole: Case,
    pub test: CondNo,
    pub yes: Case,
    pub no: Case,
}

/// A divided case that waits for the answer to a part.
#[derive(Clone, Copy, Debug)]
pub enum Waiting {
    Yes(Split),
    No(Split, Diagram),
}

/// What is known of a case without a search.
#[derive(Clone, Copy, Debug)]
pub enum Known {
    Answer(Diagram),
    /// Nothing. The value tests this condition first.
    Tests(CondNo),
}
