/// Why a run leaves the profile.
#[derive(Clone, Copy, Debug, PartialEq, Eq)]
pub enum Why {
    Fraction,
    Unsafe,
    NotANumber,
    Infinite,
    MinusZero,
    NumberSpelling,
    TextLength,
    ObjectToPrimitive,
    PrimitiveThis,
    PrimitiveProperty,
    ProtoKey,
    AbsentBuiltin,
    ClosedBuiltin,
    BuiltinArgument,
    HostArgument,
    NoAnswer,
    AnswerKind,
    NoInput,
    InputKind,
    Depth,
}
