//! Whether a script is flat. What tells of a function is a parameter, so that trees and functions are two recursions.

ghost use Rattle.std.specs.Prelude.{◌≡◌};
ghost use Rattle.std.specs.List.{list_all};
ghost use Rattle.js_tree.specs.Called.{Tells, callable_behind};
ghost use Rattle.js_tree.specs.Flat.{is_flat};
ghost use Rattle.js_tree.specs.Flat as spec;

use crate::{Case, Declarator, Expr, ExprForm, Field, Func, Script, Stmt, StmtForm};
use js_value::FuncNo;

/// The flat part of code whose functions have this number or a greater one.
#[derive(Clone, Copy)]
struct Part<'a, F> {
    funcs: &'a [Func],
    first: usize,
    callable: F,
}

impl<F: Fn(&[Func], usize, FuncNo) -> bool> Part<'_, F> {
    fn is_callable(&self, f: FuncNo) -> bool
        requires { Tells self.now.funcs.now self.now.first (F.pre self.now.callable) (F.post self.now.callable) }
        ensures { result ≡ callable_behind self.now.funcs.now self.now.first f }
    {
        (self.callable)(self.funcs, self.first, f)
    }

    #[cycle(expr_flat)]
    #[tactic(auto, using(crate::proofs::Flatness::flatness))]
    fn are_flat(&self, all: &[Expr]) -> bool
        requires { Tells self.now.funcs.now self.now.first (F.pre self.now.callable) (F.post self.now.callable) }
        ensures { result ≡ list_all (spec.expr_flat (callable_behind self.now.funcs.now self.now.first)) all.now }
    {
        for e in all {
            if !self.is_flat(e) {
                return false;
            }
        }
        true
    }

    #[cycle(expr_flat)]
    #[tactic(auto, using(crate::proofs::Flatness::flatness))]
    fn elements(&self, all: &[Option<Expr>]) -> bool
        requires { Tells self.now.funcs.now self.now.first (F.pre self.now.callable) (F.post self.now.callable) }
        ensures { result ≡ list_all (spec.maybe_expr_flat (callable_behind self.now.funcs.now self.now.first)) all.now }
    {
        for e in all {
            if let Some(e) = e {
                if !self.is_flat(e) {
                    return false;
                }
            }
        }
        true
    }

    #[cycle(expr_flat)]
    #[tactic(auto, using(crate::proofs::Flatness::flatness))]
    fn fields(&self, all: &[Field]) -> bool
        requires { Tells self.now.funcs.now self.now.first (F.pre self.now.callable) (F.post self.now.callable) }
        ensures { result ≡ list_all (spec.in_field (callable_behind self.now.funcs.now self.now.first)) all.now }
    {
        for f in all {
            if !self.field(f) {
                return false;
            }
        }
        true
    }

    #[cycle(expr_flat)]
    #[tactic(auto, using(crate::proofs::Flatness::flatness))]
    fn field(&self, field: &Field) -> bool
        requires { Tells self.now.funcs.now self.now.first (F.pre self.now.callable) (F.post self.now.callable) }
        ensures { result ≡ spec.in_field (callable_behind self.now.funcs.now self.now.first) field.now }
    {
        match field {
            Field::Value(_, _, e) => self.is_flat(e),
            Field::Getter(_, _, _) | Field::Setter(_, _, _) => false,
        }
    }

    #[cycle(expr_flat)]
    #[tactic(auto, using(crate::proofs::Flatness::flatness))]
    fn is_flat(&self, e: &Expr) -> bool
        requires { Tells self.now.funcs.now self.now.first (F.pre self.now.callable) (F.post self.now.callable) }
        ensures { result ≡ spec.expr_flat (callable_behind self.now.funcs.now self.now.first) e.now }
    {
        self.form(&e.form)
    }

    /// Whether a callee is a function that is called in place.
    fn is_called(&self, callee: &Expr) -> bool
        requires { Tells self.now.funcs.now self.now.first (F.pre self.now.callable) (F.post self.now.callable) }
        ensures { result ≡ (spec.in_expr (callable_behind self.now.funcs.now self.now.first) callee.now).callable }
    {
        match &*callee.form {
            ExprForm::Func(f) => self.is_callable(*f),
            _ => false,
        }
    }

    #[cycle(expr_flat)]
    #[tactic(auto, using(crate::proofs::Flatness::flatness))]
    fn form(&self, form: &ExprForm) -> bool
        requires { Tells self.now.funcs.now self.now.first (F.pre self.now.callable) (F.post self.now.callable) }
        ensures { result ≡ (spec.in_form (callable_behind self.now.funcs.now self.now.first) form.now).flat }
    {
        match form {
            ExprForm::This
            | ExprForm::Name(_)
            | ExprForm::Literal(_)
            | ExprForm::Func(_)
            | ExprForm::Input(_, _) => true,
            ExprForm::ArrayLit(items) => self.elements(items.as_slice()),
            ExprForm::ObjectLit(fields) => self.fields(fields.as_slice()),
            ExprForm::Member(object, _) => self.is_flat(object),
            ExprForm::Index(object, key) => self.is_flat(object) && self.is_flat(key),
            ExprForm::Call(callee, args) => self.is_called(callee)
                && self.are_flat(args.as_slice()),
            ExprForm::New(_, _) => false,
            ExprForm::Unary(_, a) => self.is_flat(a),
            ExprForm::Binary(_, a, b) => self.is_flat(a) && self.is_flat(b),
            ExprForm::Logic(_, a, b) => self.is_flat(a) && self.is_flat(b),
            ExprForm::Conditional(test, a, b) => {
                self.is_flat(test) && self.is_flat(a) && self.is_flat(b)
            }
            ExprForm::Assign(a, _, b) => self.is_flat(a) && self.is_flat(b),
            ExprForm::Step(_, a) => self.is_flat(a),
            ExprForm::Comma(a, b) => self.is_flat(a) && self.is_flat(b),
            ExprForm::HostCall(_, _, args) => self.are_flat(args.as_slice()),
        }
    }
}

impl<F: Fn(&[Func], usize, FuncNo) -> bool> Part<'_, F> {
    fn maybe(&self, e: &Option<Expr>) -> bool
        requires { Tells self.now.funcs.now self.now.first (F.pre self.now.callable) (F.post self.now.callable) }
        ensures { result ≡ spec.maybe_expr_flat (callable_behind self.now.funcs.now self.now.first) e.now }
    {
        match e {
            None => true,
            Some(e) => self.is_flat(e),
        }
    }

    #[tactic(auto, using(crate::proofs::Flatness::flatness))]
    fn declarators(&self, all: &[Declarator]) -> bool
        requires { Tells self.now.funcs.now self.now.first (F.pre self.now.callable) (F.post self.now.callable) }
        ensures { result ≡ spec.declarators_flat (callable_behind self.now.funcs.now self.now.first) all.now }
    {
        for d in all {
            if !self.maybe(&d.init) {
                return false;
            }
        }
        true
    }

    #[cycle(stmt_flat)]
    #[tactic(auto, using(crate::proofs::Flatness::flatness))]
    fn body(&self, all: &[Stmt]) -> bool
        requires { Tells self.now.funcs.now self.now.first (F.pre self.now.callable) (F.post self.now.callable) }
        ensures { result ≡ spec.body_flat (callable_behind self.now.funcs.now self.now.first) all.now }
    {
        for s in all {
            if !self.stmt(s) {
                return false;
            }
        }
        true
    }

    #[cycle(stmt_flat)]
    #[tactic(auto, using(crate::proofs::Flatness::flatness))]
    fn cases(&self, all: &[Case]) -> bool
        requires { Tells self.now.funcs.now self.now.first (F.pre self.now.callable) (F.post self.now.callable) }
        ensures { result ≡ list_all (spec.case_flat (callable_behind self.now.funcs.now self.now.first)) all.now }
    {
        for c in all {
            if !self.case(c) {
                return false;
            }
        }
        true
    }

    #[cycle(stmt_flat)]
    #[tactic(auto, using(crate::proofs::Flatness::flatness))]
    fn case(&self, c: &Case) -> bool
        requires { Tells self.now.funcs.now self.now.first (F.pre self.now.callable) (F.post self.now.callable) }
        ensures { result ≡ spec.case_flat (callable_behind self.now.funcs.now self.now.first) c.now }
    {
        self.maybe(&c.test) && self.body(c.body.as_slice())
    }

    #[cycle(stmt_flat)]
    #[tactic(auto, using(crate::proofs::Flatness::flatness))]
    fn stmt(&self, s: &Stmt) -> bool
        requires { Tells self.now.funcs.now self.now.first (F.pre self.now.callable) (F.post self.now.callable) }
        ensures { result ≡ spec.stmt_flat (callable_behind self.now.funcs.now self.now.first) s.now }
    {
        self.stmt_form(&s.form)
    }

    #[cycle(stmt_flat)]
    #[tactic(auto, using(crate::proofs::Flatness::flatness))]
    fn stmt_form(&self, form: &StmtForm) -> bool
        requires { Tells self.now.funcs.now self.now.first (F.pre self.now.callable) (F.post self.now.callable) }
        ensures { result ≡ spec.stmt_form_flat (callable_behind self.now.funcs.now self.now.first) form.now }
    {
        match form {
            StmtForm::FuncDecl(_) | StmtForm::Empty | StmtForm::Continue | StmtForm::Break => true,
            StmtForm::Var(declarators) => self.declarators(declarators.as_slice()),
            StmtForm::Eval(e) => self.is_flat(e),
            StmtForm::Block(body) => self.body(body.as_slice()),
            StmtForm::If(test, then, None) => self.is_flat(test) && self.stmt(then),
            StmtForm::If(test, then, Some(other)) => {
                self.is_flat(test) && self.stmt(then) && self.stmt(other)
            }
            StmtForm::Return(e) => self.maybe(e),
            StmtForm::Switch(e, cases) => self.is_flat(e) && self.cases(cases.as_slice()),
            StmtForm::DoWhile(_, _)
            | StmtForm::While(_, _)
            | StmtForm::For(_, _, _, _)
            | StmtForm::ForIn(_, _, _)
            | StmtForm::Throw(_)
            | StmtForm::Try(_, _, _) => false,
        }
    }
}

/// Whether a function with this number or a greater one has no name and a flat body.
#[tactic(auto, using(crate::proofs::Flatness::callable_parts))]
fn callable(funcs: &[Func], first: usize, f: FuncNo) -> bool
    ensures { result ≡ callable_behind funcs.now first f }
{
    if f.0 < first {
        return false;
    }
    let Some(func) = funcs.get(f.0) else {
        return false;
    };
    let part = Part {
        funcs,
        first: f.0 + 1,
        callable,
    };
    let is_nameless = func.name.is_none();
    is_nameless && part.body(func.body.as_slice())
}

/// Whether a script is flat: its global code, and the bodies of the functions that are called in place in the flat part,
/// have no loop, no call but of a function called in place, no `new`, no `throw`, no `try`, and no accessor in an
/// initialiser. A function called in place is a function expression without a name that is itself the callee of a call.
#[tactic(auto, unfolding(crate::specs::Flat::is_flat))]
pub fn is_flat(script: &Script) -> bool
    ensures { result ≡ is_flat script.now }
{
    let part = Part {
        funcs: script.funcs.as_slice(),
        first: 0,
        callable,
    };
    part.body(script.body.as_slice())
}
