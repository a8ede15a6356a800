//! Expressions that reading can give (11).

ghost use Rattle.std.specs.Prelude.{◌≡◌, slice_get};
ghost use Rattle.std.specs.List.{list_all};
ghost use Rattle.js_grammar.specs.ReadableExpressions as spec;

use crate::words::{is_identifier, is_identifier_name, is_readable_literal, is_readable_text};
use js_tree::{Expr, ExprForm, Field, Func};
use js_value::{BinaryOp, FuncNo, UnaryOp};

/// Code that names these functions by their numbers.
#[derive(Clone, Copy)]
pub struct Code<'a> {
    pub functions: &'a [Func],
}

/// Whether an operator can be that of an assignment (11.13.2).
fn is_compound(op: Option<BinaryOp>) -> bool
    ensures { result ≡ spec.is_compound op }
{
    match op {
        None => true,
        Some(op) => matches!(
            op,
            BinaryOp::Mul
                | BinaryOp::Div
                | BinaryOp::Rem
                | BinaryOp::Add
                | BinaryOp::Sub
                | BinaryOp::Shl
                | BinaryOp::Sar
                | BinaryOp::Shr
                | BinaryOp::BitAnd
                | BinaryOp::BitXor
                | BinaryOp::BitOr
        ),
    }
}

fn is_delete(op: UnaryOp) -> bool
    ensures { result ≡ spec.is_delete op }
{
    matches!(op, UnaryOp::Delete)
}

impl Code<'_> {
    /// Whether a function is that of an accessor with so many parameters (11.1.5).
    fn is_accessor(&self, f: FuncNo, parameters: usize) -> bool
        ensures { result ≡ spec.is_accessor parameters (slice_get self.now.functions.now f.0) }
    {
        match self.functions.get(f.0) {
            None => false,
            Some(f) => f.name.is_none() && f.params.len() == parameters,
        }
    }

    /// Whether an expression can be assigned to.
    pub fn is_target(&self, e: &Expr) -> bool
        ensures { result ≡ (spec.in_expr self.now.functions.now e.now).is_target }
    {
        matches!(
            &*e.form,
            ExprForm::Name(_) | ExprForm::Member(_, _) | ExprForm::Index(_, _)
        )
    }

    fn is_name(&self, e: &Expr) -> bool
        ensures { result ≡ (spec.in_expr self.now.functions.now e.now).is_name }
    {
        matches!(&*e.form, ExprForm::Name(_))
    }

    #[cycle(is_expr)]
    fn are_exprs(&self, all: &[Expr]) -> bool
        ensures { result ≡ list_all (spec.is_expr self.now.functions.now) all.now }
    {
        for e in all {
            if !self.is_expr(e) {
                return false;
            }
        }
        true
    }

    #[cycle(is_expr)]
    fn are_items(&self, all: &[Option<Expr>]) -> bool
        ensures { result ≡ list_all (spec.is_maybe self.now.functions.now) all.now }
    {
        for e in all {
            if let Some(e) = e {
                if !self.is_expr(e) {
                    return false;
                }
            }
        }
        true
    }

    #[cycle(is_expr)]
    fn are_fields(&self, all: &[Field]) -> bool
        ensures { result ≡ list_all (spec.in_field self.now.functions.now) all.now }
    {
        for f in all {
            if !self.is_field(f) {
                return false;
            }
        }
        true
    }

    #[cycle(is_expr)]
    fn is_field(&self, field: &Field) -> bool
        ensures { result ≡ spec.in_field self.now.functions.now field.now }
    {
        match field {
            Field::Value(_, key, e) => is_readable_text(key) && self.is_expr(e),
            Field::Getter(_, key, f) => is_readable_text(key) && self.is_accessor(*f, 0),
            Field::Setter(_, key, f) => is_readable_text(key) && self.is_accessor(*f, 1),
        }
    }

    /// Whether reading can give an expression.
    #[cycle(is_expr)]
    pub fn is_expr(&self, e: &Expr) -> bool
        ensures { result ≡ spec.is_expr self.now.functions.now e.now }
    {
        self.is_form(&e.form)
    }

    #[cycle(is_expr)]
    fn is_form(&self, form: &ExprForm) -> bool
        ensures { result ≡ (spec.in_form self.now.functions.now form.now).readable }
    {
        match form {
            ExprForm::This | ExprForm::Func(_) => true,
            ExprForm::Name(text) => is_identifier(text),
            ExprForm::Literal(value) => is_readable_literal(value),
            ExprForm::ArrayLit(items) => self.are_items(items.as_slice()),
            ExprForm::ObjectLit(fields) => self.are_fields(fields.as_slice()),
            ExprForm::Member(object, key) => self.is_expr(object) && is_identifier_name(key),
            ExprForm::Index(object, key) => self.is_expr(object) && self.is_expr(key),
            ExprForm::Call(callee, args) => {
                self.is_expr(callee) && self.are_exprs(args.as_slice())
            }
            ExprForm::New(callee, args) => self.is_expr(callee) && self.are_exprs(args.as_slice()),
            ExprForm::Unary(op, a) => self.is_expr(a) && !(is_delete(*op) && self.is_name(a)),
            ExprForm::Binary(_, a, b) => self.is_expr(a) && self.is_expr(b),
            ExprForm::Logic(_, a, b) => self.is_expr(a) && self.is_expr(b),
            ExprForm::Conditional(test, a, b) => {
                self.is_expr(test) && self.is_expr(a) && self.is_expr(b)
            }
            ExprForm::Assign(a, op, b) => {
                self.is_expr(a) && self.is_target(a) && is_compound(*op) && self.is_expr(b)
            }
            ExprForm::Step(_, a) => self.is_expr(a) && self.is_target(a),
            ExprForm::Comma(a, b) => self.is_expr(a) && self.is_expr(b),
            ExprForm::Input(_, text) => is_readable_text(text),
            ExprForm::HostCall(_, text, args) => {
                is_readable_text(text) && self.are_exprs(args.as_slice())
            }
        }
    }

    /// Whether reading can give an expression, where there is one.
    pub fn is_maybe(&self, e: &Option<Expr>) -> bool
        ensures { result ≡ spec.is_maybe self.now.functions.now e.now }
    {
        match e {
            None => true,
            Some(e) => self.is_expr(e),
        }
    }
}
