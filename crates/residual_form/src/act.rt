//! What the statements of a wrapper's body do with a temporary.

ghost use Rattle.std.specs.Prelude.{◌≡◌, min};
ghost use Rattle.js_tree.specs.declared.expression.ExprForm.{out-ExprForm};
ghost use Rattle.residual_form.specs.Acts as spec;

use crate::sought::mentions;
use crate::words::is_same;
use js_tree::{Expr, ExprForm, Stmt, StmtForm};
use js_value::Text;

/// What is done with a temporary.
#[derive(Clone, Copy)]
pub enum Act {
    /// It is read.
    Reads,
    /// It is assigned.
    Assigns,
    /// It is assigned the answer of a host call.
    TakesAnswer,
}

/// Whether an expression is this name.
pub fn names(e: &Expr, name: &Text) -> bool
    ensures { result ≡ spec.names name.now e.now }
{
    match &*e.form {
        ExprForm::Name(text) => is_same(text, name),
        _ => false,
    }
}

fn is_host_call(e: &Expr) -> bool
    ensures { result ≡ spec.is_host_call (out-ExprForm e.now.form) }
{
    matches!(&*e.form, ExprForm::HostCall(_, _, _))
}

fn assigns(act: Act, name: &Text, target: &Expr, value: &Expr) -> bool
    ensures { result ≡ spec.assigns act name.now target.now value.now }
{
    match act {
        Act::Reads => (!names(target, name) && mentions(target, name)) || mentions(value, name),
        Act::Assigns => names(target, name),
        Act::TakesAnswer => names(target, name) && is_host_call(value),
    }
}

fn reads(act: Act, name: &Text, e: &Expr) -> bool
    ensures { result ≡ spec.reads act name.now e.now }
{
    match act {
        Act::Reads => mentions(e, name),
        Act::Assigns | Act::TakesAnswer => false,
    }
}

fn does(act: Act, name: &Text, e: &Expr) -> bool
    ensures { result ≡ spec.does act name.now e.now }
{
    match &*e.form {
        ExprForm::Assign(target, _, value) => assigns(act, name, target, value),
        _ => reads(act, name, e),
    }
}

fn in_expr(e: &Expr, act: Act, name: &Text) -> u64
    ensures { result ≡ spec.in_expr act name.now e.now }
{
    if does(act, name, e) { 1 } else { 0 }
}

/// How many of these statements and of those inside them do something with a name, or the last number.
#[cycle(acts)]
pub fn in_stmts(all: &[Stmt], act: Act, name: &Text) -> u64
    ensures { result ≡ min (spec.in_stmts act name.now all.now) 18446744073709551615 }
{
    let mut count = 0u64;
    for s in all {
        count = count.saturating_add(in_stmt(s, act, name));
    }
    count
}

#[cycle(acts)]
fn in_stmt(s: &Stmt, act: Act, name: &Text) -> u64
    ensures { result ≡ min (spec.in_stmt act name.now s.now) 18446744073709551615 }
{
    in_stmt_form(&s.form, act, name)
}

#[cycle(acts)]
fn in_stmt_form(form: &StmtForm, act: Act, name: &Text) -> u64
    ensures { result ≡ min (spec.in_stmt_form act name.now form.now) 18446744073709551615 }
{
    match form {
        StmtForm::Eval(e) | StmtForm::Throw(e) => in_expr(e, act, name),
        StmtForm::Block(body) => in_stmts(body.as_slice(), act, name),
        StmtForm::If(test, then, None) => in_expr(test, act, name).saturating_add(in_stmt(
            then, act, name,
        )),
        StmtForm::If(test, then, Some(other)) => in_expr(test, act, name)
            .saturating_add(in_stmt(then, act, name))
            .saturating_add(in_stmt(other, act, name)),
        _ => 0,
    }
}

/// Whether some statement does something with a name.
pub fn is_done(all: &[Stmt], act: Act, name: &Text) -> bool
    ensures { result ≡ spec.is_done act name.now all.now }
{
    in_stmts(all, act, name) != 0
}

/// Whether a name is assigned once.
pub fn is_assigned_once(all: &[Stmt], name: &Text) -> bool
    ensures { result ≡ spec.is_assigned_once name.now all.now }
{
    in_stmts(all, Act::Assigns, name) == 1
}
