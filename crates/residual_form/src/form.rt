//! Whether a script has the form of a residual.

ghost use Rattle.std.specs.Prelude.{◌≡◌};
ghost use Rattle.std.specs.List.{list_all};
ghost use Rattle.js_tree.specs.declared.expression.ExprForm.{out-ExprForm};
ghost use Rattle.js_tree.specs.declared.statement.StmtForm.{out-StmtForm};
ghost use Rattle.residual_form.specs.Small as small;
ghost use Rattle.js_tree.specs.Parts as parts;
ghost use Rattle.residual_form.specs.Bodies.{seen};
ghost use Rattle.residual_form.specs.Form as spec;

use crate::act::{Act, is_done};
use crate::body::Body;
use crate::paths::is_this;
use crate::sought::{is_captured, is_identifier};
use crate::values::is_literal;
use js_tree::{Declarator, Expr, ExprForm, Func, Script, Stmt, StmtForm};
use js_value::{Primitive, Text, UnaryOp};

fn is_var(s: &Stmt) -> bool
    ensures { result ≡ spec.is_var (out-StmtForm s.now.form) }
{
    matches!(&*s.form, StmtForm::Var(_))
}

fn behind_var(all: &[Stmt]) -> &[Stmt]
    ensures { result.now ≡ spec.behind_var all.now }
{
    match all {
        [] => all,
        [s, more @ ..] => { if is_var(s) { more } else { all } }
    }
}

/// The declarators of a `var` statement.
fn declarators_of(s: &Stmt) -> &[Declarator]
    ensures { result.now ≡ parts.declarators_in (out-StmtForm s.now.form) }
{
    match &*s.form {
        StmtForm::Var(all) => all.as_slice(),
        _ => &[],
    }
}

fn declared_first(all: &[Stmt]) -> &[Declarator]
    ensures { result.now ≡ spec.declared_first all.now }
{
    match all {
        [] => &[],
        [s, ..] => declarators_of(s),
    }
}

/// The parts of a wrapper's body.
pub fn body_of<'a>(inner: &'a [Func], body: &'a [Stmt]) -> Body<'a>
    ensures { seen result ≡ spec.body_of inner.now body.now }
{
    Body {
        temporaries: declared_first(body),
        statements: behind_var(body),
        inner,
    }
}

impl Body<'_> {
    fn is_needed(&self, name: &Text) -> bool
        ensures { result ≡ spec.is_needed (seen self.now) name.now }
    {
        is_done(self.statements, Act::Reads, name)
            || is_captured(self.inner, name)
            || is_done(self.statements, Act::TakesAnswer, name)
    }

    fn is_needed_temporary(&self, d: &Declarator) -> bool
        ensures { result ≡ spec.is_needed_temporary (seen self.now) d.now }
    {
        d.init.is_none() && self.is_needed(&d.name)
    }

    fn are_needed(&self) -> bool
        ensures { result ≡ list_all (spec.is_needed_temporary (seen self.now)) (seen self.now).temporaries }
    {
        self.temporaries.iter().all(|d| self.is_needed_temporary(d))
    }

    fn is_body(&self) -> bool
        ensures { result ≡ spec.is_body (seen self.now) }
    {
        self.are_needed() && self.are_in_order(self.statements)
    }
}

/// Whether an expression is the first function of its script.
fn is_first(e: &Expr) -> bool
    ensures { result ≡ spec.is_first (out-ExprForm e.now.form) }
{
    match &*e.form {
        ExprForm::Func(f) => f.0 == 0,
        _ => false,
    }
}

fn is_call_of_first(e: &Expr) -> bool
    ensures { result ≡ spec.is_call_of_first (out-ExprForm e.now.form) }
{
    match &*e.form {
        ExprForm::Member(f, key) => is_first(f) && key.is_spelled(b"call"),
        _ => false,
    }
}

fn is_this_alone(all: &[Expr]) -> bool
    ensures { result ≡ spec.is_this_alone all.now }
{
    match all {
        [e] => is_this(e),
        _ => false,
    }
}

fn is_wrapper_call(e: &Expr) -> bool
    ensures { result ≡ spec.is_wrapper_call (out-ExprForm e.now.form) }
{
    match &*e.form {
        ExprForm::Call(callee, args) => {
            is_call_of_first(callee) && is_this_alone(args.as_slice())
        }
        _ => false,
    }
}

fn is_wrapper(s: &Stmt) -> bool
    ensures { result ≡ spec.is_wrapper (out-StmtForm s.now.form) }
{
    match &*s.form {
        StmtForm::Eval(e) => is_wrapper_call(e),
        _ => false,
    }
}

fn is_number(e: &Expr) -> bool
    ensures { result ≡ small.is_number (out-ExprForm e.now.form) }
{
    match &*e.form {
        ExprForm::Literal(Primitive::Number(_)) => true,
        _ => false,
    }
}

fn is_primitive(e: &Expr) -> bool
    ensures { result ≡ small.is_primitive (out-ExprForm e.now.form) }
{
    match &*e.form {
        ExprForm::Literal(value) => is_literal(value),
        ExprForm::Unary(UnaryOp::Minus, a) => is_number(a),
        ExprForm::Name(name) => name.is_spelled(b"undefined"),
        _ => false,
    }
}

fn is_constant(e: &Option<Expr>) -> bool
    ensures { result ≡ small.is_constant e.now }
{
    match e {
        None => true,
        Some(e) => is_primitive(e),
    }
}

fn are_constants(all: &[Declarator]) -> bool
    ensures { result ≡ list_all (λ d. small.is_constant d.init) all.now }
{
    all.iter().all(|d| is_constant(&d.init))
}

/// Whether a statement is a `var` statement of constants.
fn is_variables(s: &Stmt) -> bool
    ensures { result ≡ small.is_variables (out-StmtForm s.now.form) }
{
    match &*s.form {
        StmtForm::Var(all) => are_constants(all.as_slice()),
        _ => false,
    }
}

fn is_wrapped(all: &[Stmt]) -> bool
    ensures { result ≡ spec.is_wrapped all.now }
{
    match all {
        [w] => is_wrapper(w),
        [v, w] => is_variables(v) && is_wrapper(w),
        _ => false,
    }
}

fn is_plain(all: &[Stmt]) -> bool
    ensures { result ≡ small.is_residual_body all.now }
{
    match all {
        [] => true,
        [v] => is_variables(v),
        _ => false,
    }
}

fn is_wrapper_function(f: &Func, inner: &[Func]) -> bool
    ensures { result ≡ spec.is_wrapper_function f.now inner.now }
{
    f.name.is_none()
        && f.params.as_slice().is_empty()
        && !f.directive
        && body_of(inner, f.body.as_slice()).is_body()
}

fn is_code(all: &[Stmt], funcs: &[Func]) -> bool
    ensures { result ≡ spec.is_code all.now funcs.now }
{
    match funcs {
        [] => is_plain(all),
        [f, inner @ ..] => is_wrapped(all) && is_wrapper_function(f, inner),
    }
}

/// Whether a script is in residual form.
#[tactic(auto, unfolding(crate::specs::Form::is_residual))]
pub fn is_residual(script: &Script) -> bool
    ensures { result ≡ spec.is_residual script.now }
{
    !script.directive && is_code(script.body.as_slice(), script.funcs.as_slice())
}

fn wrapped_temporaries<'a>(all: &[Stmt], funcs: &'a [Func]) -> &'a [Declarator]
    ensures { result.now ≡ spec.wrapped_temporaries all.now funcs.now }
{
    match funcs {
        [] => &[],
        [f, ..] => {
            if is_wrapped(all) {
                declared_first(f.body.as_slice())
            } else {
                &[]
            }
        }
    }
}

/// The temporaries of a residual.
#[tactic(auto, unfolding(crate::specs::Form::temporaries))]
fn temporaries(script: &Script) -> &[Declarator]
    ensures { result.now ≡ spec.temporaries script.now }
{
    wrapped_temporaries(script.body.as_slice(), script.funcs.as_slice())
}

/// Whether no temporary of a residual is an identifier of its source, that is a name that is read, assigned or declared in it.
#[tactic(auto, unfolding(crate::specs::Form::is_fresh))]
pub fn is_fresh(residual: &Script, source: &Script) -> bool
    ensures { result ≡ spec.is_fresh residual.now source.now }
{
    temporaries(residual)
        .iter()
        .all(|d| !is_identifier(source, &d.name))
}
