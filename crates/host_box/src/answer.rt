use js_value::Primitive;

/// An answer to a host call: a value that the call gives, or one that it throws.
#[derive(Debug, Drop)]
pub struct Answer {
    pub value: Primitive,
    pub threw: bool,
}

/// What a call of a host came to.
#[derive(Debug, Drop)]
pub enum Reply {
    Given(Primitive),
    Thrown(Primitive),
    /// No answer is left.
    Ended,
    Failed,
    NoMemory,
}
