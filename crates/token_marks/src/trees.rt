//! What a production asks about the tree that it has read.

ghost use Rattle.std.specs.Prelude.{◌≡◌};
ghost use Rattle.js_grammar.specs.Expressions as expressions;
ghost use Rattle.js_grammar.specs.Functions as functions;
ghost use Rattle.js_grammar.specs.Reading.{grammar};
ghost use Rattle.js_grammar.specs.Statements.{last_has_init};

use js_tree::{Declarator, Expr, ExprForm, Stmt, StmtForm};
use js_value::Primitive;

/// Whether an expression may be assigned to.
pub fn is_target(x: &Expr) -> bool
    ensures { result ≡ expressions.is_target x.now }
{
    match &*x.form {
        ExprForm::Name(_) | ExprForm::Member(_, _) | ExprForm::Index(_, _) => true,
        _ => false,
    }
}

/// Whether an expression is a name.
pub fn is_name(x: &Expr) -> bool
    ensures { result ≡ expressions.is_name x.now }
{
    match &*x.form {
        ExprForm::Name(_) => true,
        _ => false,
    }
}

fn is_string_literal(x: &Expr) -> bool
    ensures { result ≡ functions.is_string_literal x.now }
{
    match &*x.form {
        ExprForm::Literal(Primitive::Text(_)) => true,
        _ => false,
    }
}

/// Whether a statement is one string.
pub fn is_string_statement(t: &Stmt) -> bool
    ensures { result ≡ functions.is_string_statement t.now }
{
    match &*t.form {
        StmtForm::Eval(x) => is_string_literal(x),
        _ => false,
    }
}

/// Whether the last of some declarators has an initialiser (12.2).
pub fn last_has_init(all: &[Declarator]) -> bool
    ensures { result ≡ last_has_init grammar all.now }
{
    match all {
        [] => false,
        [d] => d.init.is_some(),
        [_, more @ ..] => last_has_init(more),
    }
}
