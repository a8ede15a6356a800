/// What [[DefineOwnProperty]] comes to (8.12.9, 15.4.5.1).
#[derive(Clone, Copy, Debug, PartialEq, Eq)]
pub enum Defined {
    Done,
    Rejected,
    /// The length that is asked for is none, which is a RangeError.
    BadLength,
    /// The value of a built-in that is left out would have to be compared.
    OfAbsent,
}
