//! How many functions code names.

ghost use Rattle.std.specs.Prelude.{◌≡◌, min, length};
ghost use Rattle.js_grammar.specs.FunctionOrder as order;
ghost use Rattle.lone_functions.specs.Named as spec;

use js_tree::{
    Case, Catch, Declarator, Expr, ExprForm, Field, Finally, ForStart, ForTarget, Stmt, StmtForm,
};
use js_value::Box;

#[cycle(expression_functions)]
#[tactic(auto, using(crate::proofs::Counted::expression_sizes))]
fn in_exprs(all: &[Expr]) -> u64
    ensures { result ≡ min (spec.in_exprs all.now) 18446744073709551615 }
{
    let mut count = 0u64;
    for e in all {
        count = count.saturating_add(in_expr(e));
    }
    count
}

#[cycle(expression_functions)]
#[tactic(auto, using(crate::proofs::Counted::expression_sizes))]
fn in_elements(all: &[Option<Expr>]) -> u64
    ensures { result ≡ min (spec.in_elements all.now) 18446744073709551615 }
{
    let mut count = 0u64;
    for e in all {
        if let Some(e) = e {
            count = count.saturating_add(in_expr(e));
        }
    }
    count
}

#[cycle(expression_functions)]
#[tactic(auto, using(crate::proofs::Counted::expression_sizes))]
fn in_fields(all: &[Field]) -> u64
    ensures { result ≡ min (spec.in_fields all.now) 18446744073709551615 }
{
    let mut count = 0u64;
    for f in all {
        count = count.saturating_add(in_field(f));
    }
    count
}

#[cycle(expression_functions)]
#[tactic(auto, using(crate::proofs::Counted::expression_sizes))]
fn in_field(field: &Field) -> u64
    ensures { result ≡ min (spec.in_field field.now) 18446744073709551615 }
{
    match field {
        Field::Value(_, _, e) => in_expr(e),
        Field::Getter(_, _, _) | Field::Setter(_, _, _) => 1,
    }
}

#[cycle(expression_functions)]
#[tactic(auto, using(crate::proofs::Counted::expression_sizes))]
fn in_expr(e: &Expr) -> u64
    ensures { result ≡ min (spec.in_expr e.now) 18446744073709551615 }
{
    in_form(&e.form)
}

#[cycle(expression_functions)]
#[tactic(auto, using(crate::proofs::Counted::expression_sizes))]
fn in_form(form: &ExprForm) -> u64
    ensures { result ≡ min (spec.in_form form.now) 18446744073709551615 }
{
    match form {
        ExprForm::This | ExprForm::Name(_) | ExprForm::Literal(_) | ExprForm::Input(_, _) => 0,
        ExprForm::Func(_) => 1,
        ExprForm::ArrayLit(items) => in_elements(items.as_slice()),
        ExprForm::ObjectLit(fields) => in_fields(fields.as_slice()),
        ExprForm::Member(object, _) => in_expr(object),
        ExprForm::Index(object, key) => in_expr(object).saturating_add(in_expr(key)),
        ExprForm::Call(callee, args) => in_expr(callee).saturating_add(in_exprs(args.as_slice())),
        ExprForm::New(callee, args) => in_expr(callee).saturating_add(in_exprs(args.as_slice())),
        ExprForm::Unary(_, a) => in_expr(a),
        ExprForm::Binary(_, a, b) => in_expr(a).saturating_add(in_expr(b)),
        ExprForm::Logic(_, a, b) => in_expr(a).saturating_add(in_expr(b)),
        ExprForm::Conditional(test, a, b) => in_expr(test)
            .saturating_add(in_expr(a))
            .saturating_add(in_expr(b)),
        ExprForm::Assign(a, _, b) => in_expr(a).saturating_add(in_expr(b)),
        ExprForm::Step(_, a) => in_expr(a),
        ExprForm::Comma(a, b) => in_expr(a).saturating_add(in_expr(b)),
        ExprForm::HostCall(_, _, args) => in_exprs(args.as_slice()),
    }
}

fn in_maybe(e: &Option<Expr>) -> u64
    ensures { result ≡ min (spec.in_maybe e.now) 18446744073709551615 }
{
    match e {
        None => 0,
        Some(e) => in_expr(e),
    }
}

#[tactic(auto, using(crate::proofs::Counted::statement_sizes))]
fn in_declarators(all: &[Declarator]) -> u64
    ensures { result ≡ min (spec.in_declarators all.now) 18446744073709551615 }
{
    let mut count = 0u64;
    for declarator in all {
        count = count.saturating_add(in_maybe(&declarator.init));
    }
    count
}

#[tactic(auto, using(crate::proofs::Counted::statement_sizes))]
fn in_start(from: &ForStart) -> u64
    ensures { result ≡ min (length (order.in_start from.now)) 18446744073709551615 }
{
    match from {
        ForStart::Nothing => 0,
        ForStart::Expr(e) => in_expr(e),
        ForStart::Var(all) => in_declarators(all.as_slice()),
    }
}

fn in_target(to: &ForTarget) -> u64
    ensures { result ≡ min (length (order.in_target to.now)) 18446744073709551615 }
{
    match to {
        ForTarget::Expr(e) => in_expr(e),
        ForTarget::Var(_, _) => 0,
    }
}

#[cycle(statement_functions)]
#[tactic(auto, using(crate::proofs::Counted::statement_sizes))]
pub fn in_stmts(all: &[Stmt]) -> u64
    ensures { result ≡ min (spec.in_stmts all.now) 18446744073709551615 }
{
    let mut count = 0u64;
    for s in all {
        count = count.saturating_add(in_stmt(s));
    }
    count
}

#[cycle(statement_functions)]
#[tactic(auto, using(crate::proofs::Counted::statement_sizes))]
fn in_cases(all: &[Case]) -> u64
    ensures { result ≡ min (spec.in_cases all.now) 18446744073709551615 }
{
    let mut count = 0u64;
    for c in all {
        count = count.saturating_add(in_case(c));
    }
    count
}

#[cycle(statement_functions)]
#[tactic(auto, using(crate::proofs::Counted::statement_sizes))]
fn in_case(c: &Case) -> u64
    ensures { result ≡ min (spec.in_case c.now) 18446744073709551615 }
{
    in_maybe(&c.test).saturating_add(in_stmts(c.body.as_slice()))
}

#[cycle(statement_functions)]
#[tactic(auto, using(crate::proofs::Counted::statement_sizes))]
fn in_catch(c: &Catch) -> u64
    ensures { result ≡ min (spec.in_catch c.now) 18446744073709551615 }
{
    in_stmts(c.body.as_slice())
}

#[cycle(statement_functions)]
#[tactic(auto, using(crate::proofs::Counted::statement_sizes))]
fn in_finally(f: &Finally) -> u64
    ensures { result ≡ min (spec.in_finally f.now) 18446744073709551615 }
{
    in_stmts(f.body.as_slice())
}

#[cycle(statement_functions)]
#[tactic(auto, using(crate::proofs::Counted::statement_sizes))]
fn in_handler(c: &Option<Box<Catch>>) -> u64
    ensures { result ≡ min (spec.in_handler c.now) 18446744073709551615 }
{
    match c {
        None => 0,
        Some(c) => in_catch(c),
    }
}

#[cycle(statement_functions)]
#[tactic(auto, using(crate::proofs::Counted::statement_sizes))]
fn in_last(f: &Option<Box<Finally>>) -> u64
    ensures { result ≡ min (spec.in_last f.now) 18446744073709551615 }
{
    match f {
        None => 0,
        Some(f) => in_finally(f),
    }
}

#[cycle(statement_functions)]
#[tactic(auto, using(crate::proofs::Counted::statement_sizes))]
fn in_stmt(s: &Stmt) -> u64
    ensures { result ≡ min (spec.in_stmt s.now) 18446744073709551615 }
{
    in_stmt_form(&s.form)
}

#[cycle(statement_functions)]
#[tactic(auto, using(crate::proofs::Counted::statement_sizes))]
fn in_stmt_form(form: &StmtForm) -> u64
    ensures { result ≡ min (spec.in_stmt_form form.now) 18446744073709551615 }
{
    match form {
        StmtForm::Empty | StmtForm::Continue | StmtForm::Break => 0,
        StmtForm::FuncDecl(_) => 1,
        StmtForm::Var(declarators) => in_declarators(declarators.as_slice()),
        StmtForm::Eval(e) | StmtForm::Throw(e) => in_expr(e),
        StmtForm::Block(body) => in_stmts(body.as_slice()),
        StmtForm::If(test, then, None) => in_expr(test).saturating_add(in_stmt(then)),
        StmtForm::If(test, then, Some(other)) => in_expr(test)
            .saturating_add(in_stmt(then))
            .saturating_add(in_stmt(other)),
        StmtForm::DoWhile(body, test) => in_stmt(body).saturating_add(in_expr(test)),
        StmtForm::While(test, body) => in_expr(test).saturating_add(in_stmt(body)),
        StmtForm::For(from, test, step, body) => in_start(from)
            .saturating_add(in_maybe(test))
            .saturating_add(in_maybe(step))
            .saturating_add(in_stmt(body)),
        StmtForm::ForIn(to, e, body) => in_target(to)
            .saturating_add(in_expr(e))
            .saturating_add(in_stmt(body)),
        StmtForm::Return(e) => in_maybe(e),
        StmtForm::Switch(e, cases) => in_expr(e).saturating_add(in_cases(cases.as_slice())),
        StmtForm::Try(body, handler, last) => in_stmts(body.as_slice())
            .saturating_add(in_handler(handler))
            .saturating_add(in_last(last)),
    }
}
