//! The statements of a wrapper's body.

ghost use Rattle.std.specs.Prelude.{◌≡◌};
ghost use Rattle.std.specs.List.{list_all};
ghost use Rattle.js_tree.specs.declared.expression.ExprForm.{out-ExprForm};
ghost use Rattle.js_tree.specs.declared.statement.StmtForm.{out-StmtForm};
ghost use Rattle.residual_form.specs.Bodies.{seen};
ghost use Rattle.residual_form.specs.Statements as spec;

use crate::body::Body;
use crate::paths::{DEFINE_PROPERTY, PREVENT_EXTENSIONS, is_path};
use crate::values::is_literal;
use js_tree::{Expr, ExprForm, Stmt, StmtForm};
use js_value::{BinaryOp, Primitive, Text, UnaryOp};

fn is_binary(op: BinaryOp) -> bool
    ensures { result ≡ spec.is_binary op }
{
    match op {
        BinaryOp::In | BinaryOp::InstanceOf => false,
        _ => true,
    }
}

fn is_unary(op: UnaryOp) -> bool
    ensures { result ≡ spec.is_unary op }
{
    match op {
        UnaryOp::Delete => false,
        _ => true,
    }
}

/// Whether an expression is a string literal.
fn is_key(e: &Expr) -> bool
    ensures { result ≡ spec.is_key (out-ExprForm e.now.form) }
{
    match &*e.form {
        ExprForm::Literal(Primitive::Text(units)) => !units.is_spelled(b"__proto__"),
        _ => false,
    }
}

impl Body<'_> {
    fn are_operands(&self, all: &[Expr]) -> bool
        ensures { result ≡ spec.are_operands (seen self.now) all.now }
    {
        all.iter().all(|e| self.is_operand(e))
    }

    fn is_computed(&self, e: &Expr) -> bool
        ensures { result ≡ spec.is_computed (seen self.now) (out-ExprForm e.now.form) }
    {
        match &*e.form {
            ExprForm::Input(_, _) => true,
            ExprForm::HostCall(_, _, args) => self.are_operands(args.as_slice()),
            ExprForm::Unary(op, a) => is_unary(*op) && self.is_operand(a),
            ExprForm::Binary(op, a, b) => {
                is_binary(*op) && self.is_operand(a) && self.is_operand(b)
            }
            ExprForm::Member(a, key) => self.is_operand(a) && key.is_spelled(b"prototype"),
            _ => false,
        }
    }

    fn is_property(&self, e: &Expr) -> bool
        ensures { result ≡ spec.is_property (seen self.now) (out-ExprForm e.now.form) }
    {
        match &*e.form {
            ExprForm::Member(a, _) => self.is_operand(a),
            ExprForm::Index(a, key) => self.is_operand(a) && is_key(key),
            _ => false,
        }
    }

    fn is_assignment(&self, target: &Expr, value: &Expr) -> bool
        ensures { result ≡ spec.is_assignment (seen self.now) (out-ExprForm target.now.form) value.now }
    {
        match &*target.form {
            ExprForm::Name(name) => {
                self.is_temporary(name) && (self.is_value(value) || self.is_computed(value))
            }
            _ => self.is_property(target) && self.is_value(value),
        }
    }

    fn is_call_of(&self, name: &Text, args: &[Expr]) -> bool
        ensures { result ≡ spec.is_call_of (seen self.now) name.now args.now }
    {
        match args {
            [a] => self.is_bound(&PREVENT_EXTENSIONS, name) && self.is_operand(a),
            [a, key, d] => {
                self.is_bound(&DEFINE_PROPERTY, name)
                    && self.is_operand(a)
                    && is_key(key)
                    && self.is_operand(d)
            }
            _ => false,
        }
    }

    fn is_call(&self, callee: &Expr, args: &[Expr]) -> bool
        ensures { result ≡ spec.is_call (seen self.now) (out-ExprForm callee.now.form) args.now }
    {
        match &*callee.form {
            ExprForm::Name(name) => self.is_call_of(name, args),
            _ => false,
        }
    }

    fn is_action(&self, e: &Expr) -> bool
        ensures { result ≡ spec.is_action (seen self.now) (out-ExprForm e.now.form) }
    {
        match &*e.form {
            ExprForm::Assign(target, None, value) => self.is_assignment(target, value),
            ExprForm::HostCall(_, _, args) => self.are_operands(args.as_slice()),
            ExprForm::Unary(UnaryOp::Delete, a) => self.is_property(a),
            ExprForm::Call(callee, args) => self.is_call(callee, args.as_slice()),
            _ => false,
        }
    }
}

impl Body<'_> {
    #[cycle(role)]
    fn is_block(&self, s: &Stmt) -> bool
        ensures { result ≡ (spec.in_stmt (seen self.now) s.now).block }
    {
        self.is_block_form(&s.form)
    }

    #[cycle(role)]
    fn is_block_form(&self, form: &StmtForm) -> bool
        ensures { result ≡ (spec.in_stmt_form (seen self.now) form.now).block }
    {
        match form {
            StmtForm::Block(body) => self.are_all(body.as_slice()),
            _ => false,
        }
    }

    #[cycle(role)]
    fn are_all(&self, all: &[Stmt]) -> bool
        ensures { result ≡ list_all (spec.is_statement (seen self.now)) all.now }
    {
        for s in all {
            if !self.is_statement(s) {
                return false;
            }
        }
        true
    }

    #[cycle(role)]
    fn is_statement(&self, s: &Stmt) -> bool
        ensures { result ≡ spec.is_statement (seen self.now) s.now }
    {
        self.is_statement_form(&s.form)
    }

    #[cycle(role)]
    fn is_statement_form(&self, form: &StmtForm) -> bool
        ensures { result ≡ (spec.in_stmt_form (seen self.now) form.now).statement }
    {
        match form {
            StmtForm::Eval(e) => self.is_action(e),
            StmtForm::If(test, then, None) => self.is_operand(test) && self.is_block(then),
            StmtForm::If(test, then, Some(other)) => {
                self.is_operand(test) && self.is_block(then) && self.is_block(other)
            }
            _ => false,
        }
    }
}

impl Body<'_> {
    fn is_throw(&self, s: &Stmt) -> bool
        ensures { result ≡ spec.is_throw (seen self.now) (out-StmtForm s.now.form) }
    {
        match &*s.form {
            StmtForm::Throw(a) => self.is_operand(a),
            _ => false,
        }
    }

    fn is_throw_block(&self, s: &Stmt) -> bool
        ensures { result ≡ spec.is_throw_block (seen self.now) (out-StmtForm s.now.form) }
    {
        match &*s.form {
            StmtForm::Block(body) => self.is_throw_alone(body.as_slice()),
            _ => false,
        }
    }

    fn is_throw_alone(&self, all: &[Stmt]) -> bool
        ensures { result ≡ spec.is_throw_alone (seen self.now) all.now }
    {
        match all {
            [s] => self.is_throw(s),
            _ => false,
        }
    }

    fn is_end(&self, s: &Stmt) -> bool
        ensures { result ≡ spec.is_end (seen self.now) (out-StmtForm s.now.form) }
    {
        match &*s.form {
            StmtForm::If(test, then, None) => self.is_operand(test) && self.is_throw_block(then),
            _ => self.is_throw(s),
        }
    }

    fn is_end_alone(&self, all: &[Stmt]) -> bool
        ensures { result ≡ spec.is_end_alone (seen self.now) all.now }
    {
        match all {
            [s] => self.is_end(s),
            _ => false,
        }
    }

    fn are_statements(&self, all: &[Stmt]) -> bool
        ensures { result ≡ spec.are_statements (seen self.now) all.now }
    {
        match all {
            [] => true,
            [s, more @ ..] => {
                (self.is_statement(s) && self.are_statements(more)) || self.is_end_alone(all)
            }
        }
    }

    fn is_temporary_form(&self, e: &Expr) -> bool
        ensures { result ≡ spec.is_temporary_form (seen self.now) (out-ExprForm e.now.form) }
    {
        match &*e.form {
            ExprForm::Name(name) => self.is_temporary(name),
            _ => false,
        }
    }

    fn is_path_assignment(&self, e: &Expr) -> bool
        ensures { result ≡ spec.is_path_assignment (seen self.now) (out-ExprForm e.now.form) }
    {
        match &*e.form {
            ExprForm::Assign(target, None, value) => {
                self.is_temporary_form(target) && is_path(value)
            }
            _ => false,
        }
    }

    fn is_path_statement(&self, s: &Stmt) -> bool
        ensures { result ≡ spec.is_path_statement (seen self.now) (out-StmtForm s.now.form) }
    {
        match &*s.form {
            StmtForm::Eval(e) => self.is_path_assignment(e),
            _ => false,
        }
    }

    /// Whether these are path statements, then other statements, then at most one that throws.
    pub fn are_in_order(&self, all: &[Stmt]) -> bool
        ensures { result ≡ spec.are_in_order (seen self.now) all.now }
    {
        match all {
            [] => true,
            [s, more @ ..] => {
                if self.is_path_statement(s) {
                    self.are_in_order(more)
                } else {
                    self.are_statements(all)
                }
            }
        }
    }
}
