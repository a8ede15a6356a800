use crate::Expr;
use js_value::{Box, FuncNo, Place, Seq, Text};

/// A name that a function declares, with its place.
#[derive(Debug, Drop)]
pub struct Name {
    pub at: Place,
    pub text: Text,
}

/// A list of declared names.
pub type Names = Seq<Name>;

/// A name that `var` declares, with its place, and its initialiser (12.2).
#[derive(Debug, Drop)]
pub struct Declarator {
    pub at: Place,
    pub name: Text,
    pub init: Option<Expr>,
}

/// The declarators of one `var`.
pub type Declarators = Seq<Declarator>;

/// The first part of a `for` header (12.6.3).
#[derive(Debug, Drop)]
pub enum ForStart {
    Nothing,
    Expr(Expr),
    Var(Declarators),
}

/// What a `for`-`in` assigns to (12.6.4).
#[derive(Debug, Drop)]
pub enum ForTarget {
    Expr(Expr),
    Var(Place, Text),
}

/// A list of statements.
pub type Stmts = Seq<Stmt>;

/// The clauses of a `switch`.
pub type Cases = Seq<Case>;

/// A statement with the place of its first token. An expression statement has the place of its expression, so that
/// parentheses before it aren't counted.
#[cycle(statement)]
#[derive(Debug, Drop)]
pub struct Stmt {
    pub at: Place,
    pub form: Box<StmtForm>,
}

/// A clause of a `switch` (12.11). One without a test is the `default`.
#[cycle(statement)]
#[derive(Debug, Drop)]
pub struct Case {
    pub test: Option<Expr>,
    pub body: Stmts,
}

/// A handler with the name of what was thrown, and that name's place (12.14).
#[cycle(statement)]
#[derive(Debug, Drop)]
pub struct Catch {
    pub at: Place,
    pub name: Text,
    pub body: Stmts,
}

/// The part of a `try` that runs however the others end (12.14).
#[cycle(statement)]
#[derive(Debug, Drop)]
pub struct Finally {
    pub body: Stmts,
}

/// The forms of statements (12), and function declarations (13).
#[cycle(statement)]
#[derive(Debug, Drop)]
pub enum StmtForm {
    Var(Declarators),
    FuncDecl(FuncNo),
    Eval(Expr),
    Block(Stmts),
    Empty,
    If(Expr, Stmt, Option<Stmt>),
    DoWhile(Stmt, Expr),
    While(Expr, Stmt),
    For(Box<ForStart>, Box<Option<Expr>>, Box<Option<Expr>>, Stmt),
    ForIn(Box<ForTarget>, Expr, Stmt),
    Continue,
    Break,
    Return(Option<Expr>),
    Switch(Expr, Cases),
    Throw(Expr),
    Try(Stmts, Option<Box<Catch>>, Option<Box<Finally>>),
}

/// A function (13): its name where it has one, its parameters and its body. `directive` says that `"use strict"` is in
/// its prologue. Its place is that of the word `function`, or of the word `get` or `set` for an accessor (11.1.5).
#[derive(Debug, Drop)]
pub struct Func {
    pub at: Place,
    pub name: Option<Name>,
    pub params: Names,
    pub directive: bool,
    pub body: Stmts,
}

/// The functions of a script in source order.
pub type Funcs = Seq<Func>;

/// A script (14): its global code, and the functions that its code names by their positions. `directive` says that
/// `"use strict"` is in its prologue.
#[derive(Debug, Drop)]
pub struct Script {
    pub directive: bool,
    pub body: Stmts,
    pub funcs: Funcs,
}
