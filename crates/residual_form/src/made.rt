//! How many objects a residual makes.

ghost use Rattle.std.specs.Prelude.{◌≡◌, min};
ghost use Rattle.residual_form.specs.Bodies.{seen};
ghost use Rattle.residual_form.specs.Creations as spec;

use crate::body::Body;
use crate::form::{body_of, is_residual};
use crate::paths::CREATE;
use js_tree::{Expr, ExprForm, Field, Func, Script, Stmt, StmtForm};

impl Body<'_> {
    fn is_maker(&self, e: &Expr) -> bool
        ensures { result ≡ (spec.in_expr (seen self.now) e.now).creator }
    {
        match &*e.form {
            ExprForm::Name(name) => self.is_bound(&CREATE, name),
            _ => false,
        }
    }

    fn made_by_call(&self, callee: &Expr) -> u64
        ensures { result ≡ spec.by_call (spec.in_expr (seen self.now) callee.now) }
    {
        if self.is_maker(callee) { 1 } else { 0 }
    }

    #[cycle(made)]
    fn made_by_items(&self, all: &[Option<Expr>]) -> u64
        ensures { result ≡ min (spec.in_items (seen self.now) all.now) 18446744073709551615 }
    {
        let mut count = 0u64;
        for e in all {
            if let Some(e) = e {
                count = count.saturating_add(self.made(e));
            }
        }
        count
    }

    #[cycle(made)]
    fn made_by_fields(&self, all: &[Field]) -> u64
        ensures { result ≡ min (spec.in_fields (seen self.now) all.now) 18446744073709551615 }
    {
        let mut count = 0u64;
        for f in all {
            count = count.saturating_add(self.made_by_field(f));
        }
        count
    }

    #[cycle(made)]
    fn made_by_field(&self, field: &Field) -> u64
        ensures { result ≡ min (spec.in_field (seen self.now) field.now) 18446744073709551615 }
    {
        match field {
            Field::Value(_, _, e) => self.made(e),
            Field::Getter(_, _, _) | Field::Setter(_, _, _) => 0,
        }
    }

    #[cycle(made)]
    fn made(&self, e: &Expr) -> u64
        ensures { result ≡ min (spec.made (seen self.now) e.now) 18446744073709551615 }
    {
        self.made_by_form(&e.form)
    }

    #[cycle(made)]
    fn made_by_form(&self, form: &ExprForm) -> u64
        ensures { result ≡ min (spec.in_form (seen self.now) form.now).count 18446744073709551615 }
    {
        match form {
            ExprForm::ArrayLit(items) => self.made_by_items(items.as_slice()).saturating_add(1),
            ExprForm::ObjectLit(fields) => self.made_by_fields(fields.as_slice()).saturating_add(1),
            ExprForm::Func(_) => 1,
            ExprForm::Call(callee, _) => self.made_by_call(callee),
            ExprForm::Conditional(_, x, y) => self.made(x).saturating_add(self.made(y)),
            ExprForm::Assign(_, _, value) => self.made(value),
            _ => 0,
        }
    }

    #[cycle(made_by_statements)]
    fn made_by_stmts(&self, all: &[Stmt]) -> u64
        ensures { result ≡ min (spec.in_stmts (seen self.now) all.now) 18446744073709551615 }
    {
        let mut count = 0u64;
        for s in all {
            count = count.saturating_add(self.made_by_stmt(s));
        }
        count
    }

    #[cycle(made_by_statements)]
    fn made_by_stmt(&self, s: &Stmt) -> u64
        ensures { result ≡ min (spec.in_stmt (seen self.now) s.now) 18446744073709551615 }
    {
        self.made_by_stmt_form(&s.form)
    }

    #[cycle(made_by_statements)]
    fn made_by_stmt_form(&self, form: &StmtForm) -> u64
        ensures { result ≡ min (spec.in_stmt_form (seen self.now) form.now) 18446744073709551615 }
    {
        match form {
            StmtForm::Eval(e) => self.made(e),
            StmtForm::Block(body) => self.made_by_stmts(body.as_slice()),
            StmtForm::If(_, then, None) => self.made_by_stmt(then),
            StmtForm::If(_, then, Some(other)) => {
                self.made_by_stmt(then)
                    .saturating_add(self.made_by_stmt(other))
            }
            _ => 0,
        }
    }

    fn made_by_body(&self) -> u64
        ensures { result ≡ min (spec.in_body (seen self.now)) 18446744073709551615 }
    {
        self.made_by_stmts(self.statements)
    }
}

fn made_by_functions(funcs: &[Func]) -> u64
    ensures { result ≡ min (spec.of_functions funcs.now) 18446744073709551615 }
{
    match funcs {
        [] => 0,
        [f, inner @ ..] => body_of(inner, f.body.as_slice()).made_by_body(),
    }
}

/// How many array literals, object literals, function expressions and calls of `Object.create` the body of a residual's
/// wrapper has, insides of its function expressions left out, or the last number. Another script has none.
#[tactic(auto, unfolding(crate::specs::Creations::creations))]
pub fn creations(script: &Script) -> u64
    ensures { result ≡ min (spec.creations script.now) 18446744073709551615 }
{
    if is_residual(script) {
        made_by_functions(script.funcs.as_slice())
    } else {
        0
    }
}
