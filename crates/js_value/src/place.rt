/// The byte position in the source at which a node's first token begins.
#[derive(Clone, Copy, Debug, PartialEq, Eq)]
pub struct Place(pub u32);

/// The position of a function in a script's list of functions.
#[derive(Clone, Copy, Debug, PartialEq, Eq)]
pub struct FuncNo(pub usize);
