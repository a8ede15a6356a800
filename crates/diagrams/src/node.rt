/// A condition, by its place in the order in which diagrams test conditions.
#[derive(Clone, Copy, Debug, PartialEq, Eq, Hash)]
pub struct CondNo(pub usize);

/// A diagram, by the position of its top among the nodes of its `Diagrams`.
#[derive(Clone, Copy, Debug, PartialEq, Eq, Hash)]
pub struct Diagram(pub usize);

/// The top of a diagram: a number, or a test of a condition with a diagram for each answer.
#[derive(Clone, Copy, Debug, PartialEq, Eq, Hash)]
pub enum NodeForm {
    Leaf(usize),
    Node {
        test: CondNo,
        yes: Diagram,
        no: Diagram,
    },
}
