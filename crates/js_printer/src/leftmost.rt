//! What stands at the left end of an expression.

ghost use Rattle.std.specs.Prelude.{Bool, List, ◌≡◌};
ghost use Rattle.js_value.specs.declared.place.FuncNo.{FuncNo as Number};
ghost use Rattle.script_text.specs.Pieces.{Piece};
ghost use Rattle.script_text.specs.Expressions as spec;

use js_tree::{Expr, ExprForm};
use js_value::Primitive;
use token_sheets::{binary_level, is_postfix, level, logic_level};

/// Whether an expression has a call outside brackets.
#[cycle(calls)]
#[tactic(auto, using(crate::proofs::Forms::calling))]
pub fn calls(form: &ExprForm) -> bool
    ensures { (function : Bool → Number → List Piece) → result ≡ (spec.printed_form function form.now).calls }
{
    match form {
        ExprForm::Call(_, _) => true,
        ExprForm::Member(object, _) => calls_in(object),
        ExprForm::Index(object, _) => calls_in(object),
        _ => false,
    }
}

#[cycle(calls)]
#[tactic(auto, using(crate::proofs::Forms::calling))]
fn calls_in(e: &Expr) -> bool
    ensures { (function : Bool → Number → List Piece) → result ≡ (spec.printed function e.now).calls }
{
    calls(&e.form)
}

/// Whether the first token of an expression is `{`, `function` or a string (12.4).
#[cycle(starts)]
#[tactic(auto, using(crate::proofs::Forms::starting))]
pub fn starts(form: &ExprForm) -> bool
    ensures { (function : Bool → Number → List Piece) → result ≡ (spec.printed_form function form.now).starts }
{
    match form {
        ExprForm::Literal(Primitive::Text(_)) | ExprForm::ObjectLit(_) | ExprForm::Func(_) => true,
        ExprForm::Member(object, _) => starts_at(object, 16),
        ExprForm::Index(object, _) => starts_at(object, 16),
        ExprForm::Call(callee, _) => starts_at(callee, 16),
        ExprForm::Binary(op, a, _) => starts_at(a, binary_level(*op)),
        ExprForm::Logic(op, a, _) => starts_at(a, logic_level(*op)),
        ExprForm::Conditional(test, _, _) => starts_at(test, 4),
        ExprForm::Assign(a, _, _) => starts_at(a, 16),
        ExprForm::Step(op, a) => is_postfix(*op) && starts_at(a, 16),
        ExprForm::Comma(a, _) => starts_at(a, 1),
        _ => false,
    }
}

/// The same of a part that is grouped where it is looser than its place takes.
#[cycle(starts)]
#[tactic(auto, using(crate::proofs::Forms::starting))]
fn starts_at(e: &Expr, wanted: u8) -> bool
    ensures { (function : Bool → Number → List Piece) → result ≡ spec.starts_at wanted (spec.printed function e.now) }
{
    if level(&e.form) < wanted {
        return false;
    }
    starts(&e.form)
}
