//! What a script weighs: how many statements and expressions it has, how many inputs and host calls.

ghost use Rattle.std.specs.Prelude.{◌≡◌, min};
ghost use Rattle.js_tree.specs.Count.{nodes};
ghost use Rattle.js_tree.specs.Early.{host_forms, is_closed};
ghost use Rattle.js_tree.specs.Weighed as spec;

use crate::{
    Case, Catch, Declarator, Expr, ExprForm, Field, Finally, ForStart, ForTarget, Script, Stmt,
    StmtForm,
};

/// What a statement or an expression weighs, and what an input and a host call weigh beside it.
#[derive(Clone, Copy)]
struct Weights {
    node: u64,
    input: u64,
    host_call: u64,
}

#[cycle(expression_weights)]
fn in_exprs(all: &[Expr], weights: Weights) -> u64
    ensures { result ≡ min (spec.in_exprs weights all.now) 18446744073709551615 }
{
    let mut count = 0u64;
    for e in all {
        count = count.saturating_add(in_expr(e, weights));
    }
    count
}

#[cycle(expression_weights)]
fn in_elements(all: &[Option<Expr>], weights: Weights) -> u64
    ensures { result ≡ min (spec.in_elements weights all.now) 18446744073709551615 }
{
    let mut count = 0u64;
    for e in all {
        if let Some(e) = e {
            count = count.saturating_add(in_expr(e, weights));
        }
    }
    count
}

#[cycle(expression_weights)]
fn in_fields(all: &[Field], weights: Weights) -> u64
    ensures { result ≡ min (spec.in_fields weights all.now) 18446744073709551615 }
{
    let mut count = 0u64;
    for f in all {
        count = count.saturating_add(in_field(f, weights));
    }
    count
}

#[cycle(expression_weights)]
fn in_field(field: &Field, weights: Weights) -> u64
    ensures { result ≡ min (spec.in_field weights field.now) 18446744073709551615 }
{
    match field {
        Field::Value(_, _, e) => in_expr(e, weights),
        Field::Getter(_, _, _) | Field::Setter(_, _, _) => 0,
    }
}

#[cycle(expression_weights)]
fn in_expr(e: &Expr, weights: Weights) -> u64
    ensures { result ≡ min (spec.in_expr weights e.now) 18446744073709551615 }
{
    in_form(&e.form, weights).saturating_add(weights.node)
}

#[cycle(expression_weights)]
fn in_form(form: &ExprForm, weights: Weights) -> u64
    ensures { result ≡ min (spec.in_form weights form.now) 18446744073709551615 }
{
    match form {
        ExprForm::This | ExprForm::Name(_) | ExprForm::Literal(_) | ExprForm::Func(_) => 0,
        ExprForm::ArrayLit(items) => in_elements(items.as_slice(), weights),
        ExprForm::ObjectLit(fields) => in_fields(fields.as_slice(), weights),
        ExprForm::Member(object, _) => in_expr(object, weights),
        ExprForm::Index(object, key) => in_expr(object, weights).saturating_add(in_expr(
            key, weights,
        )),
        ExprForm::Call(callee, args) => in_expr(callee, weights).saturating_add(in_exprs(
            args.as_slice(),
            weights,
        )),
        ExprForm::New(callee, args) => in_expr(callee, weights).saturating_add(in_exprs(
            args.as_slice(),
            weights,
        )),
        ExprForm::Unary(_, a) => in_expr(a, weights),
        ExprForm::Binary(_, a, b) => in_expr(a, weights).saturating_add(in_expr(b, weights)),
        ExprForm::Logic(_, a, b) => in_expr(a, weights).saturating_add(in_expr(b, weights)),
        ExprForm::Conditional(test, a, b) => in_expr(test, weights)
            .saturating_add(in_expr(a, weights))
            .saturating_add(in_expr(b, weights)),
        ExprForm::Assign(a, _, b) => in_expr(a, weights).saturating_add(in_expr(b, weights)),
        ExprForm::Step(_, a) => in_expr(a, weights),
        ExprForm::Comma(a, b) => in_expr(a, weights).saturating_add(in_expr(b, weights)),
        ExprForm::Input(_, _) => weights.input,
        ExprForm::HostCall(_, _, args) => {
            in_exprs(args.as_slice(), weights).saturating_add(weights.host_call)
        }
    }
}

fn in_maybe(e: &Option<Expr>, weights: Weights) -> u64
    ensures { result ≡ min (spec.in_maybe weights e.now) 18446744073709551615 }
{
    match e {
        None => 0,
        Some(e) => in_expr(e, weights),
    }
}

fn in_declarators(all: &[Declarator], weights: Weights) -> u64
    ensures { result ≡ min (spec.in_declarators weights all.now) 18446744073709551615 }
{
    let mut count = 0u64;
    for declarator in all {
        count = count.saturating_add(in_maybe(&declarator.init, weights));
    }
    count
}

fn in_start(from: &ForStart, weights: Weights) -> u64
    ensures { result ≡ min (spec.in_start weights from.now) 18446744073709551615 }
{
    match from {
        ForStart::Nothing => 0,
        ForStart::Expr(e) => in_expr(e, weights),
        ForStart::Var(all) => in_declarators(all.as_slice(), weights),
    }
}

fn in_target(to: &ForTarget, weights: Weights) -> u64
    ensures { result ≡ min (spec.in_target weights to.now) 18446744073709551615 }
{
    match to {
        ForTarget::Expr(e) => in_expr(e, weights),
        ForTarget::Var(_, _) => 0,
    }
}

#[cycle(statement_weights)]
fn in_stmts(all: &[Stmt], weights: Weights) -> u64
    ensures { result ≡ min (spec.in_stmts weights all.now) 18446744073709551615 }
{
    let mut count = 0u64;
    for s in all {
        count = count.saturating_add(in_stmt(s, weights));
    }
    count
}

#[cycle(statement_weights)]
fn in_cases(all: &[Case], weights: Weights) -> u64
    ensures { result ≡ min (spec.in_cases weights all.now) 18446744073709551615 }
{
    let mut count = 0u64;
    for c in all {
        count = count.saturating_add(in_case(c, weights));
    }
    count
}

#[cycle(statement_weights)]
fn in_case(c: &Case, weights: Weights) -> u64
    ensures { result ≡ min (spec.in_case weights c.now) 18446744073709551615 }
{
    in_maybe(&c.test, weights).saturating_add(in_stmts(c.body.as_slice(), weights))
}

#[cycle(statement_weights)]
fn in_catch(c: &Catch, weights: Weights) -> u64
    ensures { result ≡ min (spec.in_catch weights c.now) 18446744073709551615 }
{
    in_stmts(c.body.as_slice(), weights)
}

#[cycle(statement_weights)]
fn in_finally(f: &Finally, weights: Weights) -> u64
    ensures { result ≡ min (spec.in_finally weights f.now) 18446744073709551615 }
{
    in_stmts(f.body.as_slice(), weights)
}

#[cycle(statement_weights)]
fn in_stmt(s: &Stmt, weights: Weights) -> u64
    ensures { result ≡ min (spec.in_stmt weights s.now) 18446744073709551615 }
{
    in_stmt_form(&s.form, weights).saturating_add(weights.node)
}

#[cycle(statement_weights)]
fn in_stmt_form(form: &StmtForm, weights: Weights) -> u64
    ensures { result ≡ min (spec.in_stmt_form weights form.now) 18446744073709551615 }
{
    match form {
        StmtForm::FuncDecl(_) | StmtForm::Empty | StmtForm::Continue | StmtForm::Break => 0,
        StmtForm::Var(declarators) => in_declarators(declarators.as_slice(), weights),
        StmtForm::Eval(e) | StmtForm::Throw(e) => in_expr(e, weights),
        StmtForm::Block(body) => in_stmts(body.as_slice(), weights),
        StmtForm::If(test, then, None) => in_expr(test, weights).saturating_add(in_stmt(
            then, weights,
        )),
        StmtForm::If(test, then, Some(other)) => in_expr(test, weights)
            .saturating_add(in_stmt(then, weights))
            .saturating_add(in_stmt(other, weights)),
        StmtForm::DoWhile(body, test) => in_stmt(body, weights).saturating_add(in_expr(
            test, weights,
        )),
        StmtForm::While(test, body) => in_expr(test, weights).saturating_add(in_stmt(
            body, weights,
        )),
        StmtForm::For(from, test, step, body) => in_start(from, weights)
            .saturating_add(in_maybe(test, weights))
            .saturating_add(in_maybe(step, weights))
            .saturating_add(in_stmt(body, weights)),
        StmtForm::ForIn(to, e, body) => in_target(to, weights)
            .saturating_add(in_expr(e, weights))
            .saturating_add(in_stmt(body, weights)),
        StmtForm::Return(e) => in_maybe(e, weights),
        StmtForm::Switch(e, cases) => in_expr(e, weights).saturating_add(in_cases(
            cases.as_slice(),
            weights,
        )),
        StmtForm::Try(body, None, None) => in_stmts(body.as_slice(), weights),
        StmtForm::Try(body, Some(handler), None) => {
            in_stmts(body.as_slice(), weights).saturating_add(in_catch(handler, weights))
        }
        StmtForm::Try(body, None, Some(last)) => {
            in_stmts(body.as_slice(), weights).saturating_add(in_finally(last, weights))
        }
        StmtForm::Try(body, Some(handler), Some(last)) => in_stmts(body.as_slice(), weights)
            .saturating_add(in_catch(handler, weights))
            .saturating_add(in_finally(last, weights)),
    }
}

fn in_script(script: &Script, weights: Weights) -> u64
    ensures { result ≡ min (spec.in_script weights script.now) 18446744073709551615 }
{
    let mut count = in_stmts(script.body.as_slice(), weights);
    for f in script.funcs.as_slice() {
        count = count.saturating_add(in_stmts(f.body.as_slice(), weights));
    }
    count
}

/// How many statements and expressions there are, or the last number.
pub fn nodes(script: &Script) -> u64
    ensures { result ≡ min (nodes script.now) 18446744073709551615 }
{
    in_script(
        script,
        Weights {
            node: 1,
            input: 0,
            host_call: 0,
        },
    )
}

/// How many host calls there are, in functions too, or the last number.
#[tactic(auto, unfolding(crate::specs::Early::host_forms))]
pub fn host_forms(script: &Script) -> u64
    ensures { result ≡ min (host_forms script.now) 18446744073709551615 }
{
    in_script(
        script,
        Weights {
            node: 0,
            input: 0,
            host_call: 1,
        },
    )
}

/// Whether there is neither an input nor a host call, in functions too.
#[tactic(auto, unfolding(crate::specs::Early::is_closed))]
pub fn is_closed(script: &Script) -> bool
    ensures { result ≡ is_closed script.now }
{
    in_script(
        script,
        Weights {
            node: 0,
            input: 1,
            host_call: 1,
        },
    ) == 0
}
