//! The functions that code names, and the inputs that it takes, in source order.

ghost use Rattle.std.specs.Prelude.{◌≡◌, ◌++◌, ◌∷◌, [], OnOk};
ghost use Rattle.readable_trees.specs.Items as spec;

use js_tree::{
    Case, Catch, Declarator, Expr, ExprForm, Field, Finally, ForStart, ForTarget, Stmt, StmtForm,
};
use js_value::{Box, FuncNo, Kind, NoMemory, Text};

/// What of code stands for more than itself: a function by its number, and an input.
#[derive(Clone, Copy)]
pub enum Item<'a> {
    Function(FuncNo),
    Input(Kind, &'a Text),
}

fn push<'a>(item: Item<'a>, items: &mut Vec<Item<'a>>) -> Result<(), NoMemory>
    ensures { OnOk result (spec.told items.new.items ≡ spec.told items.old.items ++ spec.item_of item.entry ∷ []) }
{
    items.push(item)?;
    Ok(())
}

#[cycle(expr_items)]
fn in_exprs<'a>(all: &'a [Expr], items: &mut Vec<Item<'a>>) -> Result<(), NoMemory>
    ensures { OnOk result (spec.told items.new.items ≡ spec.told items.old.items ++ spec.in_exprs all.now) }
{
    for e in all {
        in_expr(e, items)?;
    }
    Ok(())
}

#[cycle(expr_items)]
fn in_elements<'a>(all: &'a [Option<Expr>], items: &mut Vec<Item<'a>>) -> Result<(), NoMemory>
    ensures { OnOk result (spec.told items.new.items ≡ spec.told items.old.items ++ spec.in_elements all.now) }
{
    for e in all {
        if let Some(e) = e {
            in_expr(e, items)?;
        }
    }
    Ok(())
}

#[cycle(expr_items)]
fn in_fields<'a>(all: &'a [Field], items: &mut Vec<Item<'a>>) -> Result<(), NoMemory>
    ensures { OnOk result (spec.told items.new.items ≡ spec.told items.old.items ++ spec.in_fields all.now) }
{
    for field in all {
        in_field(field, items)?;
    }
    Ok(())
}

#[cycle(expr_items)]
fn in_field<'a>(field: &'a Field, items: &mut Vec<Item<'a>>) -> Result<(), NoMemory>
    ensures { OnOk result (spec.told items.new.items ≡ spec.told items.old.items ++ spec.in_field field.now) }
{
    match field {
        Field::Value(_, _, e) => in_expr(e, items),
        Field::Getter(_, _, f) | Field::Setter(_, _, f) => push(Item::Function(*f), items),
    }
}

#[cycle(expr_items)]
fn in_expr<'a>(e: &'a Expr, items: &mut Vec<Item<'a>>) -> Result<(), NoMemory>
    ensures { OnOk result (spec.told items.new.items ≡ spec.told items.old.items ++ spec.in_expr e.now) }
{
    in_form(&e.form, items)
}

#[cycle(expr_items)]
fn in_form<'a>(form: &'a ExprForm, items: &mut Vec<Item<'a>>) -> Result<(), NoMemory>
    ensures { OnOk result (spec.told items.new.items ≡ spec.told items.old.items ++ spec.in_form form.now) }
{
    match form {
        ExprForm::This | ExprForm::Name(_) | ExprForm::Literal(_) => Ok(()),
        ExprForm::ArrayLit(elements) => in_elements(elements.as_slice(), items),
        ExprForm::ObjectLit(fields) => in_fields(fields.as_slice(), items),
        ExprForm::Func(f) => push(Item::Function(*f), items),
        ExprForm::Member(a, _) | ExprForm::Unary(_, a) | ExprForm::Step(_, a) => in_expr(a, items),
        ExprForm::Index(a, b)
        | ExprForm::Binary(_, a, b)
        | ExprForm::Logic(_, a, b)
        | ExprForm::Assign(a, _, b)
        | ExprForm::Comma(a, b) => {
            in_expr(a, items)?;
            in_expr(b, items)
        }
        ExprForm::Call(callee, args) | ExprForm::New(callee, args) => {
            in_expr(callee, items)?;
            in_exprs(args.as_slice(), items)
        }
        ExprForm::Conditional(test, a, b) => {
            in_expr(test, items)?;
            in_expr(a, items)?;
            in_expr(b, items)
        }
        ExprForm::Input(kind, text) => push(Item::Input(*kind, text), items),
        ExprForm::HostCall(_, _, args) => in_exprs(args.as_slice(), items),
    }
}

fn in_maybe<'a>(e: &'a Option<Expr>, items: &mut Vec<Item<'a>>) -> Result<(), NoMemory>
    ensures { OnOk result (spec.told items.new.items ≡ spec.told items.old.items ++ spec.in_maybe e.now) }
{
    match e {
        None => Ok(()),
        Some(e) => in_expr(e, items),
    }
}

fn in_declarators<'a>(all: &'a [Declarator], items: &mut Vec<Item<'a>>) -> Result<(), NoMemory>
    ensures { OnOk result (spec.told items.new.items ≡ spec.told items.old.items ++ spec.in_declarators all.now) }
{
    for d in all {
        in_maybe(&d.init, items)?;
    }
    Ok(())
}

fn in_start<'a>(from: &'a ForStart, items: &mut Vec<Item<'a>>) -> Result<(), NoMemory>
    ensures { OnOk result (spec.told items.new.items ≡ spec.told items.old.items ++ spec.in_start from.now) }
{
    match from {
        ForStart::Nothing => Ok(()),
        ForStart::Expr(e) => in_expr(e, items),
        ForStart::Var(all) => in_declarators(all.as_slice(), items),
    }
}

fn in_target<'a>(to: &'a ForTarget, items: &mut Vec<Item<'a>>) -> Result<(), NoMemory>
    ensures { OnOk result (spec.told items.new.items ≡ spec.told items.old.items ++ spec.in_target to.now) }
{
    match to {
        ForTarget::Expr(e) => in_expr(e, items),
        ForTarget::Var(_, _) => Ok(()),
    }
}

/// The header of a `for` (12.6.3).
fn in_header<'a>(
    from: &'a ForStart,
    test: &'a Option<Expr>,
    step: &'a Option<Expr>,
    items: &mut Vec<Item<'a>>,
) -> Result<(), NoMemory>
    ensures { OnOk result (spec.told items.new.items ≡ spec.told items.old.items ++ spec.in_header from.now test.now step.now) }
{
    in_start(from, items)?;
    in_maybe(test, items)?;
    in_maybe(step, items)
}

/// Puts behind the others what statements have.
#[cycle(stmt_items)]
pub fn in_stmts<'a>(all: &'a [Stmt], items: &mut Vec<Item<'a>>) -> Result<(), NoMemory>
    ensures { OnOk result (spec.told items.new.items ≡ spec.told items.old.items ++ spec.in_stmts all.now) }
{
    for s in all {
        in_stmt(s, items)?;
    }
    Ok(())
}

#[cycle(stmt_items)]
fn in_cases<'a>(all: &'a [Case], items: &mut Vec<Item<'a>>) -> Result<(), NoMemory>
    ensures { OnOk result (spec.told items.new.items ≡ spec.told items.old.items ++ spec.in_cases all.now) }
{
    for c in all {
        in_case(c, items)?;
    }
    Ok(())
}

#[cycle(stmt_items)]
fn in_case<'a>(c: &'a Case, items: &mut Vec<Item<'a>>) -> Result<(), NoMemory>
    ensures { OnOk result (spec.told items.new.items ≡ spec.told items.old.items ++ spec.in_case c.now) }
{
    in_maybe(&c.test, items)?;
    in_stmts(c.body.as_slice(), items)
}

#[cycle(stmt_items)]
fn in_handler<'a>(
    handler: &'a Option<Box<Catch>>,
    items: &mut Vec<Item<'a>>,
) -> Result<(), NoMemory>
    ensures { OnOk result (spec.told items.new.items ≡ spec.told items.old.items ++ spec.in_handler handler.now) }
{
    match handler {
        None => Ok(()),
        Some(handler) => in_catch(handler, items),
    }
}

#[cycle(stmt_items)]
fn in_catch<'a>(c: &'a Catch, items: &mut Vec<Item<'a>>) -> Result<(), NoMemory>
    ensures { OnOk result (spec.told items.new.items ≡ spec.told items.old.items ++ spec.in_catch c.now) }
{
    in_stmts(c.body.as_slice(), items)
}

#[cycle(stmt_items)]
fn in_last<'a>(last: &'a Option<Box<Finally>>, items: &mut Vec<Item<'a>>) -> Result<(), NoMemory>
    ensures { OnOk result (spec.told items.new.items ≡ spec.told items.old.items ++ spec.in_last last.now) }
{
    match last {
        None => Ok(()),
        Some(last) => in_finally(last, items),
    }
}

#[cycle(stmt_items)]
fn in_finally<'a>(f: &'a Finally, items: &mut Vec<Item<'a>>) -> Result<(), NoMemory>
    ensures { OnOk result (spec.told items.new.items ≡ spec.told items.old.items ++ spec.in_finally f.now) }
{
    in_stmts(f.body.as_slice(), items)
}

#[cycle(stmt_items)]
fn in_stmt<'a>(s: &'a Stmt, items: &mut Vec<Item<'a>>) -> Result<(), NoMemory>
    ensures { OnOk result (spec.told items.new.items ≡ spec.told items.old.items ++ spec.in_stmt s.now) }
{
    in_stmt_form(&s.form, items)
}

#[cycle(stmt_items)]
fn in_stmt_form<'a>(form: &'a StmtForm, items: &mut Vec<Item<'a>>) -> Result<(), NoMemory>
    ensures { OnOk result (spec.told items.new.items ≡ spec.told items.old.items ++ spec.in_stmt_form form.now) }
{
    match form {
        StmtForm::Empty | StmtForm::Continue | StmtForm::Break => Ok(()),
        StmtForm::Var(all) => in_declarators(all.as_slice(), items),
        StmtForm::FuncDecl(f) => push(Item::Function(*f), items),
        StmtForm::Eval(e) | StmtForm::Throw(e) => in_expr(e, items),
        StmtForm::Block(body) => in_stmts(body.as_slice(), items),
        StmtForm::If(test, then, None) => {
            in_expr(test, items)?;
            in_stmt(then, items)
        }
        StmtForm::If(test, then, Some(other)) => {
            in_expr(test, items)?;
            in_stmt(then, items)?;
            in_stmt(other, items)
        }
        StmtForm::DoWhile(body, test) => {
            in_stmt(body, items)?;
            in_expr(test, items)
        }
        StmtForm::While(test, body) => {
            in_expr(test, items)?;
            in_stmt(body, items)
        }
        StmtForm::For(from, test, step, body) => {
            in_header(from, test, step, items)?;
            in_stmt(body, items)
        }
        StmtForm::ForIn(to, object, body) => {
            in_target(to, items)?;
            in_expr(object, items)?;
            in_stmt(body, items)
        }
        StmtForm::Return(e) => in_maybe(e, items),
        StmtForm::Switch(e, cases) => {
            in_expr(e, items)?;
            in_cases(cases.as_slice(), items)
        }
        StmtForm::Try(body, handler, last) => {
            in_stmts(body.as_slice(), items)?;
            in_handler(handler, items)?;
            in_last(last, items)
        }
    }
}
