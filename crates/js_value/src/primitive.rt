use crate::Text;

/// A value that is no object (8.1 to 8.5). A number is a whole number.
#[derive(Debug, Drop)]
pub enum Primitive {
    Undefined,
    Null,
    Boolean(bool),
    Number(i64),
    Text(Text),
}

/// The kinds of values that inputs and answers of the host have.
#[derive(Clone, Copy, Debug, PartialEq, Eq)]
pub enum Kind {
    Number,
    Boolean,
    Text,
}
