//! Checks that each name that is read is declared.

ghost use Rattle.std.specs.Prelude.{◌≡◌, ℕ, List, IfOk};
ghost use Rattle.std.specs.List.{list_all};
ghost use Rattle.js_tree.specs.Parts.{is_among};
ghost use Rattle.simple_scripts.specs.Simple as spec;
ghost use Rattle.simple_scripts.specs.NameSet as known;

use js_tree::{Declarator, Expr, ExprForm, Stmt, StmtForm};
use js_value::NoMemory;
use std::alloc::Global;
use std::collections::HashSet;

/// The names that are declared.
type Names<'a> = HashSet<&'a [u16]>;

/// The declarators of a `var` statement.
fn declarators_of(s: &Stmt) -> &[Declarator]
    ensures { result.now ≡ known.of_statement s.now }
{
    match &*s.form {
        StmtForm::Var(all) => all.as_slice(),
        _ => &[],
    }
}

/// The names that the statements declare.
fn declared<'a>(alloc: Global, statements: &'a [Stmt]) -> Result<Names<'a>, NoMemory>
    ensures { IfOk result (λ names. (q : List ℕ) →
        known.has names q ≡ is_among (spec.declared_names statements.now) q) }
{
    let mut names = HashSet::new(alloc);
    for s in statements {
        for one in declarators_of(s) {
            names.insert(one.name.as_slice())?;
        }
    }
    Ok(names)
}

/// Whether each name that an expression reads is known.
fn knows_names(e: &Expr, names: &Names) -> bool
    ensures { result ≡ known.has_all names.now (spec.names_in e.now) }
{
    match &*e.form {
        ExprForm::Name(name) => names.contains(name.as_slice()),
        ExprForm::Unary(_, a) => knows_names(a, names),
        ExprForm::Binary(_, a, b) => knows_names(a, names) && knows_names(b, names),
        _ => true,
    }
}

fn knows_declarator(one: &Declarator, names: &Names) -> bool
    ensures { result ≡ known.knows_declarator names.now one.now }
{
    match &one.init {
        None => true,
        Some(e) => knows_names(e, names),
    }
}

fn knows_statement(s: &Stmt, names: &Names) -> bool
    ensures { result ≡ known.knows_statement names.now s.now }
{
    declarators_of(s)
        .iter()
        .all(|one| knows_declarator(one, names))
}

fn knows_statements(all: &[Stmt], names: &Names) -> bool
    ensures { result ≡ list_all (known.knows_statement names.now) all.now }
{
    all.iter().all(|s| knows_statement(s, names))
}

/// Whether each name that is read is declared somewhere.
pub fn reads_declared(alloc: Global, statements: &[Stmt]) -> Result<bool, NoMemory>
    ensures { IfOk result (λ b. b ≡ spec.reads_declared statements.now) }
{
    let names = declared(alloc, statements)?;
    Ok(knows_statements(statements, &names))
}
