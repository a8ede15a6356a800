//! The names that code declares as a whole, wherever in it their declarations stand (10.5).

ghost use Rattle.std.specs.Prelude.{◌≡◌, OnOk, IfOk};
ghost use Rattle.std.specs.Option.{option_to_list};
ghost use Rattle.js_tree.specs.declared.statement.StmtForm.{out-StmtForm};
ghost use Rattle.js_tree.specs.Mentions as names;
ghost use Rattle.js_scope.specs.Hoisting as spec;

use crate::names::Names;
use js_tree::{Case, Catch, Declarator, Finally, ForStart, ForTarget, Script, Stmt, StmtForm};
use js_value::{FuncNo, NoMemory, Seq, Text};
use std::alloc::Global;

fn declarators(alloc: Global, all: &[Declarator], vars: &mut Names) -> Result<(), NoMemory>
    ensures { OnOk result (vars.new ≡ spec.add_all vars.old (names.declared_in all.now)) }
{
    for d in all {
        vars.add(alloc, &d.name)?;
    }
    Ok(())
}

fn in_start(alloc: Global, from: &ForStart, vars: &mut Names) -> Result<(), NoMemory>
    ensures { OnOk result (vars.new ≡ spec.add_all vars.old (names.start_vars from.now)) }
{
    match from {
        ForStart::Nothing | ForStart::Expr(_) => Ok(()),
        ForStart::Var(all) => declarators(alloc, all.as_slice(), vars),
    }
}

fn in_target(alloc: Global, to: &ForTarget, vars: &mut Names) -> Result<(), NoMemory>
    ensures { OnOk result (vars.new ≡ spec.add_all vars.old (names.target_vars to.now)) }
{
    match to {
        ForTarget::Expr(_) => Ok(()),
        ForTarget::Var(_, name) => vars.add(alloc, name),
    }
}

/// Adds the names that `var` declares in these statements, each once.
#[cycle(hoisting)]
#[tactic(auto, using(crate::proofs::Leaving::lists))]
pub fn in_stmts(all: &[Stmt], alloc: Global, vars: &mut Names) -> Result<(), NoMemory>
    ensures { OnOk result (vars.new ≡ spec.add_all vars.old (spec.in_stmts all.now)) }
{
    for s in all {
        in_stmt(s, alloc, vars)?;
    }
    Ok(())
}

#[cycle(hoisting)]
#[tactic(auto, using(crate::proofs::Leaving::lists))]
fn in_cases(all: &[Case], alloc: Global, vars: &mut Names) -> Result<(), NoMemory>
    ensures { OnOk result (vars.new ≡ spec.add_all vars.old (spec.in_cases all.now)) }
{
    for c in all {
        in_case(c, alloc, vars)?;
    }
    Ok(())
}

#[cycle(hoisting)]
fn in_case(c: &Case, alloc: Global, vars: &mut Names) -> Result<(), NoMemory>
    ensures { OnOk result (vars.new ≡ spec.add_all vars.old (spec.in_case c.now)) }
{
    in_stmts(c.body.as_slice(), alloc, vars)
}

#[cycle(hoisting)]
fn in_catch(c: &Catch, alloc: Global, vars: &mut Names) -> Result<(), NoMemory>
    ensures { OnOk result (vars.new ≡ spec.add_all vars.old (spec.in_catch c.now)) }
{
    in_stmts(c.body.as_slice(), alloc, vars)
}

#[cycle(hoisting)]
fn in_finally(f: &Finally, alloc: Global, vars: &mut Names) -> Result<(), NoMemory>
    ensures { OnOk result (vars.new ≡ spec.add_all vars.old (spec.in_finally f.now)) }
{
    in_stmts(f.body.as_slice(), alloc, vars)
}

#[cycle(hoisting)]
fn in_stmt(s: &Stmt, alloc: Global, vars: &mut Names) -> Result<(), NoMemory>
    ensures { OnOk result (vars.new ≡ spec.add_all vars.old (names.vars_in s.now)) }
{
    in_form(&s.form, alloc, vars)
}

#[cycle(hoisting)]
fn in_form(form: &StmtForm, alloc: Global, vars: &mut Names) -> Result<(), NoMemory>
    ensures { OnOk result (vars.new ≡ spec.add_all vars.old (spec.in_form form.now)) }
{
    match form {
        StmtForm::Var(all) => declarators(alloc, all.as_slice(), vars),
        StmtForm::Block(body) => in_stmts(body.as_slice(), alloc, vars),
        StmtForm::If(_, then, None) => in_stmt(then, alloc, vars),
        StmtForm::If(_, then, Some(other)) => {
            in_stmt(then, alloc, vars)?;
            in_stmt(other, alloc, vars)
        }
        StmtForm::DoWhile(body, _) => in_stmt(body, alloc, vars),
        StmtForm::While(_, body) => in_stmt(body, alloc, vars),
        StmtForm::For(from, _, _, body) => {
            in_start(alloc, from, vars)?;
            in_stmt(body, alloc, vars)
        }
        StmtForm::ForIn(to, _, body) => {
            in_target(alloc, to, vars)?;
            in_stmt(body, alloc, vars)
        }
        StmtForm::Switch(_, cases) => in_cases(cases.as_slice(), alloc, vars),
        StmtForm::Try(body, None, None) => in_stmts(body.as_slice(), alloc, vars),
        StmtForm::Try(body, Some(handler), None) => {
            in_stmts(body.as_slice(), alloc, vars)?;
            in_catch(handler, alloc, vars)
        }
        StmtForm::Try(body, None, Some(last)) => {
            in_stmts(body.as_slice(), alloc, vars)?;
            in_finally(last, alloc, vars)
        }
        StmtForm::Try(body, Some(handler), Some(last)) => {
            in_stmts(body.as_slice(), alloc, vars)?;
            in_catch(handler, alloc, vars)?;
            in_finally(last, alloc, vars)
        }
        StmtForm::FuncDecl(_)
        | StmtForm::Eval(_)
        | StmtForm::Empty
        | StmtForm::Continue
        | StmtForm::Break
        | StmtForm::Return(_)
        | StmtForm::Throw(_) => Ok(()),
    }
}

/// The names that global code or a function's body declares as a whole (10.5).
#[derive(Debug, Drop)]
pub struct HoistedNames {
    /// The function declarations among its elements, in order, those of one name too.
    pub functions: Seq<FuncNo>,
    /// The names that `var` declares in it, each once, in the order in which they come first.
    pub vars: Seq<Text>,
}

/// The function that a statement declares.
fn declared_function(s: &Stmt) -> Option<FuncNo>
    ensures { option_to_list result ≡ names.declares (out-StmtForm s.now.form) }
{
    match &*s.form {
        StmtForm::FuncDecl(f) => Some(*f),
        _ => None,
    }
}

/// The functions that are declared among a body's elements, in order.
#[tactic(auto, unfolding(js_tree::specs::Mentions::hoisted_functions))]
pub fn functions_in(alloc: Global, body: &[Stmt]) -> Result<Seq<FuncNo>, NoMemory>
    ensures { IfOk result (λ fs. fs ≡ names.hoisted_functions body.now) }
{
    let mut functions = Seq::new(alloc);
    for s in body {
        if let Some(f) = declared_function(s) {
            functions.push(f)?;
        }
    }
    Ok(functions)
}

/// The names that `var` declares in a body, each once, in the order in which they come first.
#[tactic(auto, using(crate::proofs::Gathered::gathered))]
pub fn vars_of(alloc: Global, body: &[Stmt]) -> Result<Seq<Text>, NoMemory>
    ensures { IfOk result (λ vars. vars ≡ names.hoisted_vars body.now) }
{
    let mut vars = Names::new(alloc);
    in_stmts(body, alloc, &mut vars)?;
    vars.texts(alloc)
}

fn of_body(alloc: Global, body: &[Stmt]) -> Result<HoistedNames, NoMemory>
    ensures { IfOk result (λ h. spec.HoistsBody body.now h) }
{
    Ok(HoistedNames {
        functions: functions_in(alloc, body)?,
        vars: vars_of(alloc, body)?,
    })
}

/// The names that the global code declares as a whole, or the body of a function (10.5). A number past the functions has
/// an empty body. `NoMemory` comes only where there is no memory.
pub fn hoisted(alloc: Global, script: &Script, f: Option<FuncNo>) -> Result<HoistedNames, NoMemory>
    ensures { IfOk result (λ h. spec.HoistsBody (spec.body_of script.now f) h) }
{
    let Some(f) = f else {
        return of_body(alloc, script.body.as_slice());
    };
    match script.funcs.as_slice().get(f.0) {
        None => of_body(alloc, &[]),
        Some(function) => of_body(alloc, function.body.as_slice()),
    }
}
