use js_value::{BinaryOp, Box, FuncNo, Kind, Place, Primitive, Seq, Text, UnaryOp};

/// `&&` and `||` (11.11).
#[derive(Clone, Copy, Debug, PartialEq, Eq)]
pub enum LogicOp {
    And,
    Or,
}

/// `++` and `--` before and after their operand (11.3, 11.4.4, 11.4.5).
#[derive(Clone, Copy, Debug, PartialEq, Eq)]
pub enum StepOp {
    PreUp,
    PreDown,
    PostUp,
    PostDown,
}

/// A list of expressions.
pub type Exprs = Seq<Expr>;

/// The elements of an array literal. `None` is an elision.
pub type Elements = Seq<Option<Expr>>;

/// The properties of an object literal.
pub type Fields = Seq<Field>;

/// An expression with the place of its first token, parentheses around it or around its leftmost part not counted.
#[cycle(tree)]
#[derive(Debug, Drop)]
pub struct Expr {
    pub at: Place,
    pub form: Box<ExprForm>,
}

/// A property of an object literal, with the place of its key (11.1.5).
#[cycle(tree)]
#[derive(Debug, Drop)]
pub enum Field {
    Value(Place, Text, Expr),
    Getter(Place, Text, FuncNo),
    Setter(Place, Text, FuncNo),
}

/// The forms of expressions (11). A number literal isn't negative, and parentheses leave no trace.
#[cycle(tree)]
#[derive(Debug, Drop)]
pub enum ExprForm {
    This,
    Name(Text),
    Literal(Primitive),
    ArrayLit(Elements),
    ObjectLit(Fields),
    Func(FuncNo),
    Member(Expr, Text),
    Index(Expr, Expr),
    Call(Expr, Exprs),
    New(Expr, Exprs),
    Unary(UnaryOp, Expr),
    Binary(BinaryOp, Expr, Expr),
    Logic(LogicOp, Expr, Expr),
    Conditional(Expr, Expr, Expr),
    /// A target, the operator of a compound assignment, and the value.
    Assign(Expr, Option<BinaryOp>, Expr),
    Step(StepOp, Expr),
    Comma(Expr, Expr),
    /// `__abstract` with its two literals.
    Input(Kind, Text),
    /// `__residual` with its two literals and its arguments.
    HostCall(Kind, Text, Exprs),
}
