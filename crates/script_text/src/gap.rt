//! How a token stands beside the next one.

/// What may stand before the next token.
#[derive(Clone, Copy)]
pub enum Gap {
    /// The indentation of its line, which begins with it.
    Start,
    /// Nothing.
    Tight,
    /// Nothing, or a space where two signs would meet.
    Sign,
    /// A space, unless the token stands without one before it.
    Loose,
}
