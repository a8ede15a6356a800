//! The parts of a wrapper's body, and what its temporaries are bound to.

ghost use Rattle.std.specs.Prelude.{◌≡◌, map};
ghost use Rattle.std.specs.List.{list_any};
ghost use Rattle.js_tree.specs.declared.expression.ExprForm.{out-ExprForm};
ghost use Rattle.js_tree.specs.declared.statement.StmtForm.{out-StmtForm};
ghost use Rattle.residual_form.specs.Bodies as spec;

use crate::act::{is_assigned_once, names};
use crate::paths::leads;
use crate::sought::use_name;
use crate::words::is_same;
use js_tree::{Declarator, Expr, ExprForm, Func, Stmt, StmtForm};
use js_value::Text;

/// The body of a wrapper in its parts.
#[derive(Clone, Copy)]
pub struct Body<'a> {
    /// What its first statement declares, where that is a `var` statement.
    pub temporaries: &'a [Declarator],
    /// The statements behind it.
    pub statements: &'a [Stmt],
    /// The functions of the script behind the wrapper's own.
    pub inner: &'a [Func],
}

/// Whether an assignment assigns this path to a name.
fn assigns_path(e: &Expr, path: &[&[u8]], name: &Text) -> bool
    ensures { result ≡ spec.assigns_path (map (λ n. n.now) path.now) name.now (out-ExprForm e.now.form) }
{
    match &*e.form {
        ExprForm::Assign(target, None, value) => names(target, name) && leads(value, path),
        _ => false,
    }
}

/// Whether a statement assigns this path to a name.
fn is_path_to(s: &Stmt, path: &[&[u8]], name: &Text) -> bool
    ensures { result ≡ spec.is_path_to (map (λ n. n.now) path.now) name.now (out-StmtForm s.now.form) }
{
    match &*s.form {
        StmtForm::Eval(e) => assigns_path(e, path, name),
        _ => false,
    }
}

fn has_path(all: &[Stmt], path: &[&[u8]], name: &Text) -> bool
    ensures { result ≡ list_any (λ s. spec.is_path_to (map (λ n. n.now) path.now) name.now (out-StmtForm s.form)) all.now }
{
    all.iter().any(|s| is_path_to(s, path, name))
}

impl Body<'_> {
    /// Whether a name is a temporary.
    pub fn is_temporary(&self, name: &Text) -> bool
        ensures { result ≡ spec.is_temporary (spec.seen self.now) name.now }
    {
        self.temporaries.iter().any(|d| is_same(&d.name, name))
    }

    /// Whether a temporary stands for this path.
    pub fn is_bound(&self, path: &[&[u8]], name: &Text) -> bool
        ensures { result ≡ spec.is_bound (spec.seen self.now) (map (λ n. n.now) path.now) name.now }
    {
        has_path(self.statements, path, name)
            && is_assigned_once(self.statements, name)
            && !use_name(self.inner, name)
    }
}
