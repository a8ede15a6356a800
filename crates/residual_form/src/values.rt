//! Operands and values: what is assigned and read in a residual.

ghost use Rattle.std.specs.Prelude.{◌≡◌};
ghost use Rattle.std.specs.List.{list_all};
ghost use Rattle.residual_form.specs.Bodies.{seen};
ghost use Rattle.residual_form.specs.Values as spec;

use crate::body::Body;
use crate::paths::CREATE;
use js_tree::{Expr, ExprForm, Field};
use js_value::{FuncNo, Primitive, Text, UnaryOp};

/// Whether a value can stand as a literal.
pub fn is_literal(value: &Primitive) -> bool
    ensures { result ≡ spec.is_literal value.now }
{
    match value {
        Primitive::Text(units) => !units.is_spelled(b"__proto__"),
        _ => true,
    }
}

impl Body<'_> {
    fn is_number(&self, e: &Expr) -> bool
        ensures { result ≡ (spec.in_expr (seen self.now) e.now).number }
    {
        match &*e.form {
            ExprForm::Literal(Primitive::Number(_)) => true,
            _ => false,
        }
    }

    fn is_operand_name(&self, name: &Text) -> bool
        ensures { result ≡ spec.is_operand_name (seen self.now) name.now }
    {
        self.is_temporary(name) || name.is_spelled(b"undefined")
    }

    /// Whether an expression is an operand.
    pub fn is_operand(&self, e: &Expr) -> bool
        ensures { result ≡ spec.is_operand (seen self.now) e.now }
    {
        match &*e.form {
            ExprForm::This => true,
            ExprForm::Name(name) => self.is_operand_name(name),
            ExprForm::Literal(value) => is_literal(value),
            ExprForm::Unary(UnaryOp::Minus, a) => self.is_number(a),
            _ => false,
        }
    }

    fn is_one_operand(&self, all: &[Expr]) -> bool
        ensures { result ≡ spec.is_one_operand (seen self.now) all.now }
    {
        match all {
            [e] => self.is_operand(e),
            _ => false,
        }
    }

    /// Whether an expression is a temporary that stands for `Object.create`.
    pub fn is_creator(&self, e: &Expr) -> bool
        ensures { result ≡ (spec.in_expr (seen self.now) e.now).creator }
    {
        match &*e.form {
            ExprForm::Name(name) => self.is_bound(&CREATE, name),
            _ => false,
        }
    }

    fn is_nameless(&self, f: FuncNo) -> bool
        ensures { result ≡ spec.is_nameless (seen self.now).inner f }
    {
        if f.0 < 1 {
            return false;
        }
        match self.inner.get(f.0 - 1) {
            None => false,
            Some(function) => function.name.is_none(),
        }
    }

    #[cycle(is_value)]
    fn are_items(&self, all: &[Option<Expr>]) -> bool
        ensures { result ≡ list_all (spec.is_item_of (seen self.now)) all.now }
    {
        for e in all {
            let Some(e) = e else {
                return false;
            };
            if !self.is_value(e) {
                return false;
            }
        }
        true
    }

    #[cycle(is_value)]
    fn are_fields(&self, all: &[Field]) -> bool
        ensures { result ≡ list_all (spec.in_field (seen self.now)) all.now }
    {
        for f in all {
            if !self.is_field(f) {
                return false;
            }
        }
        true
    }

    #[cycle(is_value)]
    fn is_field(&self, field: &Field) -> bool
        ensures { result ≡ spec.in_field (seen self.now) field.now }
    {
        match field {
            Field::Value(_, _, e) => self.is_value(e),
            Field::Getter(_, _, _) | Field::Setter(_, _, _) => false,
        }
    }

    /// Whether an expression is a value.
    #[cycle(is_value)]
    pub fn is_value(&self, e: &Expr) -> bool
        ensures { result ≡ spec.is_value (seen self.now) e.now }
    {
        self.is_value_form(&e.form)
    }

    #[cycle(is_value)]
    fn is_value_form(&self, form: &ExprForm) -> bool
        ensures { result ≡ (spec.in_form (seen self.now) form.now).value }
    {
        match form {
            ExprForm::This => true,
            ExprForm::Name(name) => self.is_operand_name(name),
            ExprForm::Literal(value) => is_literal(value),
            ExprForm::Unary(UnaryOp::Minus, a) => self.is_number(a),
            ExprForm::Conditional(test, x, y) => {
                self.is_operand(test) && self.is_value(x) && self.is_value(y)
            }
            ExprForm::ArrayLit(items) => self.are_items(items.as_slice()),
            ExprForm::ObjectLit(fields) => self.are_fields(fields.as_slice()),
            ExprForm::Func(f) => self.is_nameless(*f),
            ExprForm::Call(callee, args) => {
                self.is_creator(callee) && self.is_one_operand(args.as_slice())
            }
            _ => false,
        }
    }
}
