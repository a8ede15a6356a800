//! Where a name stands in code.

ghost use Rattle.std.specs.Prelude.{◌≡◌, ◌&&◌, ◌||◌};
ghost use Rattle.std.specs.List.{list_any};
ghost use Rattle.residual_form.specs.Names as spec;

use crate::words::is_same;
use js_tree::{
    Case, Catch, Declarator, Expr, ExprForm, Field, Finally, ForStart, ForTarget, Func, Name,
    Script, Stmt, StmtForm,
};
use js_value::Text;

/// Whether a name is looked for where it is used, that is read or assigned, and where it is declared.
#[derive(Clone, Copy)]
pub struct Sought {
    pub used: bool,
    pub declared: bool,
}

const USED: Sought = Sought {
    used: true,
    declared: false,
};

const DECLARED: Sought = Sought {
    used: false,
    declared: true,
};

const EITHER: Sought = Sought {
    used: true,
    declared: true,
};

#[cycle(expr_mentions)]
fn exprs_mention(all: &[Expr], name: &Text) -> bool
    ensures { result ≡ list_any (spec.mentions name.now) all.now }
{
    for e in all {
        if mentions(e, name) {
            return true;
        }
    }
    false
}

#[cycle(expr_mentions)]
fn elements_mention(all: &[Option<Expr>], name: &Text) -> bool
    ensures { result ≡ list_any (spec.maybe_mentions name.now) all.now }
{
    for e in all {
        if let Some(e) = e {
            if mentions(e, name) {
                return true;
            }
        }
    }
    false
}

#[cycle(expr_mentions)]
fn fields_mention(all: &[Field], name: &Text) -> bool
    ensures { result ≡ list_any (spec.in_field name.now) all.now }
{
    for f in all {
        if field_mentions(f, name) {
            return true;
        }
    }
    false
}

#[cycle(expr_mentions)]
fn field_mentions(field: &Field, name: &Text) -> bool
    ensures { result ≡ spec.in_field name.now field.now }
{
    match field {
        Field::Value(_, _, e) => mentions(e, name),
        Field::Getter(_, _, _) | Field::Setter(_, _, _) => false,
    }
}

/// Whether an expression reads or assigns a name, insides of functions left out.
#[cycle(expr_mentions)]
pub fn mentions(e: &Expr, name: &Text) -> bool
    ensures { result ≡ spec.mentions name.now e.now }
{
    form_mentions(&e.form, name)
}

#[cycle(expr_mentions)]
fn form_mentions(form: &ExprForm, name: &Text) -> bool
    ensures { result ≡ spec.in_form name.now form.now }
{
    match form {
        ExprForm::This | ExprForm::Literal(_) | ExprForm::Func(_) | ExprForm::Input(_, _) => false,
        ExprForm::Name(text) => is_same(text, name),
        ExprForm::ArrayLit(items) => elements_mention(items.as_slice(), name),
        ExprForm::ObjectLit(fields) => fields_mention(fields.as_slice(), name),
        ExprForm::Member(object, _) => mentions(object, name),
        ExprForm::Index(object, key) => mentions(object, name) || mentions(key, name),
        ExprForm::Call(callee, args) => {
            mentions(callee, name) || exprs_mention(args.as_slice(), name)
        }
        ExprForm::New(callee, args) => {
            mentions(callee, name) || exprs_mention(args.as_slice(), name)
        }
        ExprForm::Unary(_, a) | ExprForm::Step(_, a) => mentions(a, name),
        ExprForm::Binary(_, a, b)
        | ExprForm::Logic(_, a, b)
        | ExprForm::Assign(a, _, b)
        | ExprForm::Comma(a, b) => mentions(a, name) || mentions(b, name),
        ExprForm::Conditional(test, a, b) => {
            mentions(test, name) || mentions(a, name) || mentions(b, name)
        }
        ExprForm::HostCall(_, _, args) => exprs_mention(args.as_slice(), name),
    }
}

fn uses(e: &Expr, name: &Text, sought: Sought) -> bool
    ensures { result ≡ spec.uses name.now sought e.now }
{
    sought.used && mentions(e, name)
}

fn maybe_uses(e: &Option<Expr>, name: &Text, sought: Sought) -> bool
    ensures { result ≡ spec.maybe_uses name.now sought e.now }
{
    match e {
        None => false,
        Some(e) => uses(e, name, sought),
    }
}

fn declares(text: &Text, name: &Text, sought: Sought) -> bool
    ensures { result ≡ spec.declares name.now sought text.now }
{
    sought.declared && is_same(text, name)
}

fn in_declarator(d: &Declarator, name: &Text, sought: Sought) -> bool
    ensures { result ≡ spec.in_declarator name.now sought d.now }
{
    declares(&d.name, name, sought) || maybe_uses(&d.init, name, sought)
}

fn in_declarators(all: &[Declarator], name: &Text, sought: Sought) -> bool
    ensures { result ≡ spec.in_declarators name.now sought all.now }
{
    all.iter().any(|d| in_declarator(d, name, sought))
}

fn in_start(from: &ForStart, name: &Text, sought: Sought) -> bool
    ensures { result ≡ spec.in_start name.now sought from.now }
{
    match from {
        ForStart::Nothing => false,
        ForStart::Expr(e) => uses(e, name, sought),
        ForStart::Var(all) => in_declarators(all.as_slice(), name, sought),
    }
}

fn in_target(to: &ForTarget, name: &Text, sought: Sought) -> bool
    ensures { result ≡ spec.in_target name.now sought to.now }
{
    match to {
        ForTarget::Expr(e) => uses(e, name, sought),
        ForTarget::Var(_, text) => declares(text, name, sought),
    }
}

#[cycle(stmt_sought)]
fn in_stmts(all: &[Stmt], name: &Text, sought: Sought) -> bool
    ensures { result ≡ spec.in_stmts name.now sought all.now }
{
    for s in all {
        if in_stmt(s, name, sought) {
            return true;
        }
    }
    false
}

#[cycle(stmt_sought)]
fn in_cases(all: &[Case], name: &Text, sought: Sought) -> bool
    ensures { result ≡ spec.in_cases name.now sought all.now }
{
    for c in all {
        if in_case(c, name, sought) {
            return true;
        }
    }
    false
}

#[cycle(stmt_sought)]
fn in_case(c: &Case, name: &Text, sought: Sought) -> bool
    ensures { result ≡ spec.in_case name.now sought c.now }
{
    maybe_uses(&c.test, name, sought) || in_stmts(c.body.as_slice(), name, sought)
}

#[cycle(stmt_sought)]
fn in_catch(c: &Catch, name: &Text, sought: Sought) -> bool
    ensures { result ≡ spec.in_catch name.now sought c.now }
{
    declares(&c.name, name, sought) || in_stmts(c.body.as_slice(), name, sought)
}

#[cycle(stmt_sought)]
fn in_finally(f: &Finally, name: &Text, sought: Sought) -> bool
    ensures { result ≡ spec.in_finally name.now sought f.now }
{
    in_stmts(f.body.as_slice(), name, sought)
}

#[cycle(stmt_sought)]
fn in_stmt(s: &Stmt, name: &Text, sought: Sought) -> bool
    ensures { result ≡ spec.in_stmt name.now sought s.now }
{
    in_stmt_form(&s.form, name, sought)
}

#[cycle(stmt_sought)]
fn in_stmt_form(form: &StmtForm, name: &Text, sought: Sought) -> bool
    ensures { result ≡ spec.in_stmt_form name.now sought form.now }
{
    match form {
        StmtForm::FuncDecl(_) | StmtForm::Empty | StmtForm::Continue | StmtForm::Break => false,
        StmtForm::Var(all) => in_declarators(all.as_slice(), name, sought),
        StmtForm::Eval(e) | StmtForm::Throw(e) => uses(e, name, sought),
        StmtForm::Block(body) => in_stmts(body.as_slice(), name, sought),
        StmtForm::If(test, then, None) => {
            uses(test, name, sought) || in_stmt(then, name, sought)
        }
        StmtForm::If(test, then, Some(other)) => {
            uses(test, name, sought) || in_stmt(then, name, sought) || in_stmt(other, name, sought)
        }
        StmtForm::DoWhile(body, test) => in_stmt(body, name, sought) || uses(test, name, sought),
        StmtForm::While(test, body) => uses(test, name, sought) || in_stmt(body, name, sought),
        StmtForm::For(from, test, step, body) => {
            in_start(from, name, sought)
                || maybe_uses(test, name, sought)
                || maybe_uses(step, name, sought)
                || in_stmt(body, name, sought)
        }
        StmtForm::ForIn(to, e, body) => {
            in_target(to, name, sought) || uses(e, name, sought) || in_stmt(body, name, sought)
        }
        StmtForm::Return(e) => maybe_uses(e, name, sought),
        StmtForm::Switch(e, cases) => {
            uses(e, name, sought) || in_cases(cases.as_slice(), name, sought)
        }
        StmtForm::Try(body, None, None) => in_stmts(body.as_slice(), name, sought),
        StmtForm::Try(body, Some(handler), None) => {
            in_stmts(body.as_slice(), name, sought) || in_catch(handler, name, sought)
        }
        StmtForm::Try(body, None, Some(last)) => {
            in_stmts(body.as_slice(), name, sought) || in_finally(last, name, sought)
        }
        StmtForm::Try(body, Some(handler), Some(last)) => {
            in_stmts(body.as_slice(), name, sought)
                || in_catch(handler, name, sought)
                || in_finally(last, name, sought)
        }
    }
}

fn is_own(own: &Option<Name>, name: &Text, sought: Sought) -> bool
    ensures { result ≡ spec.is_own name.now sought own.now }
{
    match own {
        None => false,
        Some(own) => declares(&own.text, name, sought),
    }
}

fn are_parameters(all: &[Name], name: &Text, sought: Sought) -> bool
    ensures { result ≡ spec.are_parameters name.now sought all.now }
{
    all.iter().any(|p| declares(&p.text, name, sought))
}

fn in_func(f: &Func, name: &Text, sought: Sought) -> bool
    ensures { result ≡ spec.in_func name.now sought f.now }
{
    is_own(&f.name, name, sought)
        || are_parameters(f.params.as_slice(), name, sought)
        || in_stmts(f.body.as_slice(), name, sought)
}

fn in_funcs(all: &[Func], name: &Text, sought: Sought) -> bool
    ensures { result ≡ spec.in_funcs name.now sought all.now }
{
    all.iter().any(|f| in_func(f, name, sought))
}

/// Whether functions use a name.
pub fn use_name(all: &[Func], name: &Text) -> bool
    ensures { result ≡ spec.in_funcs name.now spec.used all.now }
{
    in_funcs(all, name, USED)
}

/// Whether functions use a name, and none of them declares it.
pub fn is_captured(all: &[Func], name: &Text) -> bool
    ensures { result ≡ spec.is_captured all.now name.now }
{
    use_name(all, name) && !in_funcs(all, name, DECLARED)
}

/// Whether a name is read, assigned or declared in a script.
#[tactic(auto, unfolding(crate::specs::Names::is_identifier))]
pub fn is_identifier(script: &Script, name: &Text) -> bool
    ensures { result ≡ spec.is_identifier script.now name.now }
{
    in_stmts(script.body.as_slice(), name, EITHER)
        || in_funcs(script.funcs.as_slice(), name, EITHER)
}
