//! Whether a tree is no higher than a number.

ghost use Rattle.std.specs.Prelude.{◌≡◌, true};
ghost use Rattle.std.specs.List.{list_all};
ghost use Rattle.js_grammar.specs.Heights as spec;
ghost use Rattle.tree_heights.specs.Within as within;

use js_tree::{
    Case, Catch, Declarator, Expr, ExprForm, Field, Finally, ForStart, ForTarget, Func, Stmt,
    StmtForm,
};
use js_value::{Box, FuncNo};

#[cycle(heights)]
fn are_within(functions: &[Func], n: u32, all: &[Expr]) -> bool
    ensures { result ≡ list_all (spec.is_within functions.now n) all.now }
{
    for x in all {
        if !is_within(functions, n, x) {
            return false;
        }
    }
    true
}

#[cycle(heights)]
fn are_items_within(functions: &[Func], n: u32, all: &[Option<Expr>]) -> bool
    ensures { result ≡ list_all (spec.or_true (spec.is_within functions.now n)) all.now }
{
    for x in all {
        if !is_maybe_within(functions, n, x) {
            return false;
        }
    }
    true
}

#[cycle(heights)]
fn is_maybe_within(functions: &[Func], n: u32, x: &Option<Expr>) -> bool
    ensures { result ≡ spec.or_true (spec.is_within functions.now n) x.now }
{
    match x {
        None => true,
        Some(x) => is_within(functions, n, x),
    }
}

#[cycle(heights)]
fn are_fields_within(functions: &[Func], n: u32, all: &[Field]) -> bool
    ensures { result ≡ list_all (λ f. within.field functions.now n f) all.now }
{
    for field in all {
        if !is_field_within(functions, n, field) {
            return false;
        }
    }
    true
}

#[cycle(heights)]
fn is_field_within(functions: &[Func], n: u32, field: &Field) -> bool
    ensures { result ≡ within.field functions.now n field.now }
{
    match field {
        Field::Value(_, _, x) => is_within(functions, n, x),
        Field::Getter(_, _, f) => is_function_within(functions, n, *f),
        Field::Setter(_, _, f) => is_function_within(functions, n, *f),
    }
}

#[cycle(heights)]
fn is_function_within(functions: &[Func], n: u32, f: FuncNo) -> bool
    ensures { result ≡ within.inside functions.now n f }
{
    match functions.get(f.0) {
        None => true,
        Some(g) => are_stmts_within(functions, n, g.body.as_slice()),
    }
}

/// Whether an expression is no higher than so much.
#[cycle(heights)]
pub fn is_within(functions: &[Func], n: u32, x: &Expr) -> bool
    ensures { result ≡ spec.is_within functions.now n x.now }
{
    n > 0 && is_form_within(functions, n - 1, &x.form)
}

#[cycle(heights)]
fn is_form_within(functions: &[Func], n: u32, form: &ExprForm) -> bool
    ensures { result ≡ within.form functions.now n form.now }
{
    match form {
        ExprForm::This | ExprForm::Name(_) | ExprForm::Literal(_) | ExprForm::Input(_, _) => true,
        ExprForm::ArrayLit(items) => are_items_within(functions, n, items.as_slice()),
        ExprForm::ObjectLit(fields) => are_fields_within(functions, n, fields.as_slice()),
        ExprForm::Func(f) => is_function_within(functions, n, *f),
        ExprForm::Member(object, _) => is_within(functions, n, object),
        ExprForm::Index(object, key) => {
            is_within(functions, n, object) && is_within(functions, n, key)
        }
        ExprForm::Call(callee, args) => {
            is_within(functions, n, callee) && are_within(functions, n, args.as_slice())
        }
        ExprForm::New(callee, args) => {
            is_within(functions, n, callee) && are_within(functions, n, args.as_slice())
        }
        ExprForm::Unary(_, a) => is_within(functions, n, a),
        ExprForm::Binary(_, a, b) => is_within(functions, n, a) && is_within(functions, n, b),
        ExprForm::Logic(_, a, b) => is_within(functions, n, a) && is_within(functions, n, b),
        ExprForm::Conditional(test, a, b) => {
            is_within(functions, n, test)
                && is_within(functions, n, a)
                && is_within(functions, n, b)
        }
        ExprForm::Assign(a, _, b) => is_within(functions, n, a) && is_within(functions, n, b),
        ExprForm::Step(_, a) => is_within(functions, n, a),
        ExprForm::Comma(a, b) => is_within(functions, n, a) && is_within(functions, n, b),
        ExprForm::HostCall(_, _, args) => are_within(functions, n, args.as_slice()),
    }
}

#[cycle(heights)]
fn are_declarators_within(functions: &[Func], n: u32, all: &[Declarator]) -> bool
    ensures { result ≡ spec.declarators_fit (spec.is_within functions.now n) (spec.is_stmt_within functions.now n) (within.inside functions.now n) all.now }
{
    for declarator in all {
        if !is_maybe_within(functions, n, &declarator.init) {
            return false;
        }
    }
    true
}

#[cycle(heights)]
fn are_stmts_within(functions: &[Func], n: u32, all: &[Stmt]) -> bool
    ensures { result ≡ list_all (spec.is_stmt_within functions.now n) all.now }
{
    for t in all {
        if !is_stmt_within(functions, n, t) {
            return false;
        }
    }
    true
}

/// Whether a statement is no higher than so much.
#[cycle(heights)]
pub fn is_stmt_within(functions: &[Func], n: u32, t: &Stmt) -> bool
    ensures { result ≡ spec.is_stmt_within functions.now n t.now }
{
    n > 0 && is_stmt_form_within(functions, n - 1, &t.form)
}

#[cycle(heights)]
fn is_stmt_form_within(functions: &[Func], n: u32, form: &StmtForm) -> bool
    ensures { result ≡ within.stmt_form functions.now n form.now }
{
    match form {
        StmtForm::Var(all) => are_declarators_within(functions, n, all.as_slice()),
        StmtForm::FuncDecl(f) => is_function_within(functions, n, *f),
        StmtForm::Eval(x) => is_within(functions, n, x),
        StmtForm::Block(body) => are_stmts_within(functions, n, body.as_slice()),
        StmtForm::Empty | StmtForm::Continue | StmtForm::Break => true,
        StmtForm::If(test, a, b) => {
            is_within(functions, n, test)
                && is_stmt_within(functions, n, a)
                && is_maybe_stmt_within(functions, n, b)
        }
        StmtForm::DoWhile(body, test) => {
            is_stmt_within(functions, n, body) && is_within(functions, n, test)
        }
        StmtForm::While(test, body) => {
            is_within(functions, n, test) && is_stmt_within(functions, n, body)
        }
        StmtForm::For(from, test, step, body) => {
            is_start_within(functions, n, from)
                && is_maybe_within(functions, n, test)
                && is_maybe_within(functions, n, step)
                && is_stmt_within(functions, n, body)
        }
        StmtForm::ForIn(to, object, body) => {
            is_target_within(functions, n, to)
                && is_within(functions, n, object)
                && is_stmt_within(functions, n, body)
        }
        StmtForm::Return(x) => is_maybe_within(functions, n, x),
        StmtForm::Switch(x, cases) => {
            is_within(functions, n, x) && are_cases_within(functions, n, cases.as_slice())
        }
        StmtForm::Throw(x) => is_within(functions, n, x),
        StmtForm::Try(body, handler, last) => {
            are_stmts_within(functions, n, body.as_slice())
                && is_handler_within(functions, n, handler)
                && is_last_within(functions, n, last)
        }
    }
}

#[cycle(heights)]
fn is_maybe_stmt_within(functions: &[Func], n: u32, t: &Option<Stmt>) -> bool
    ensures { result ≡ spec.or_true (spec.is_stmt_within functions.now n) t.now }
{
    match t {
        None => true,
        Some(t) => is_stmt_within(functions, n, t),
    }
}

#[cycle(heights)]
fn is_start_within(functions: &[Func], n: u32, from: &ForStart) -> bool
    ensures { result ≡ spec.start_fits (spec.is_within functions.now n) (spec.is_stmt_within functions.now n) (within.inside functions.now n) from.now }
{
    match from {
        ForStart::Nothing => true,
        ForStart::Expr(x) => is_within(functions, n, x),
        ForStart::Var(all) => are_declarators_within(functions, n, all.as_slice()),
    }
}

#[cycle(heights)]
fn is_target_within(functions: &[Func], n: u32, to: &ForTarget) -> bool
    ensures { result ≡ spec.target_fits (spec.is_within functions.now n) (spec.is_stmt_within functions.now n) (within.inside functions.now n) to.now }
{
    match to {
        ForTarget::Expr(x) => is_within(functions, n, x),
        ForTarget::Var(_, _) => true,
    }
}

#[cycle(heights)]
fn are_cases_within(functions: &[Func], n: u32, all: &[Case]) -> bool
    ensures { result ≡ list_all (λ c. within.clause functions.now n c) all.now }
{
    for case in all {
        if !is_maybe_within(functions, n, &case.test)
            || !are_stmts_within(functions, n, case.body.as_slice())
        {
            return false;
        }
    }
    true
}

#[cycle(heights)]
fn is_handler_within(functions: &[Func], n: u32, handler: &Option<Box<Catch>>) -> bool
    ensures { result ≡ within.handler functions.now n handler.now }
{
    match handler {
        None => true,
        Some(handler) => are_stmts_within(functions, n, handler.body.as_slice()),
    }
}

#[cycle(heights)]
fn is_last_within(functions: &[Func], n: u32, last: &Option<Box<Finally>>) -> bool
    ensures { result ≡ within.last functions.now n last.now }
{
    match last {
        None => true,
        Some(last) => are_stmts_within(functions, n, last.body.as_slice()),
    }
}
