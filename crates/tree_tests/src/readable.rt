//! Scripts that reading can give and scripts that it can't, worked out by hand.

use js_tree::{Expr, ExprForm, Func, Script, Stmt, StmtForm};
use js_value::{Box, FuncNo, NoMemory, Place, Primitive, Seq, Text, UnaryOp};
use readable_trees::is_readable;
use std::alloc::Global;
use std::test::Fail;

const AT: Place = Place(0);

fn one<T: Drop>(alloc: Global, item: T) -> Result<Seq<T>, NoMemory> {
    let mut all = Seq::new(alloc);
    all.push(item)?;
    Ok(all)
}

fn expr(alloc: Global, form: ExprForm) -> Result<Expr, NoMemory> {
    Ok(Expr {
        at: AT,
        form: Box::new(alloc, form)?,
    })
}

fn stmt(alloc: Global, form: StmtForm) -> Result<Stmt, NoMemory> {
    Ok(Stmt {
        at: AT,
        form: Box::new(alloc, form)?,
    })
}

fn name(alloc: Global, spelling: &str) -> Result<Expr, NoMemory> {
    expr(alloc, ExprForm::Name(Text::from_str(alloc, spelling)?))
}

/// Whether a script of this statement alone is readable.
fn tells(alloc: Global, code: Stmt) -> Result<bool, NoMemory> {
    let script = Script {
        directive: false,
        body: one(alloc, code)?,
        funcs: Seq::new(alloc),
    };
    is_readable(alloc, &script)
}

/// Of an expression as a statement.
fn tells_expr(alloc: Global, form: ExprForm) -> Result<bool, NoMemory> {
    let value = expr(alloc, form)?;
    tells(alloc, stmt(alloc, StmtForm::Eval(value))?)
}

/// Of a script that reads a name.
fn tells_name(alloc: Global, spelling: &str) -> Result<bool, NoMemory> {
    tells_expr(alloc, ExprForm::Name(Text::from_str(alloc, spelling)?))
}

#[test]
fn names_are_identifiers(rt: HostRuntime) -> Result<(), Fail> {
    let alloc = rt.alloc();
    for (spelling, wanted) in [
        ("a1$_", true),
        ("é", true),
        ("𠮷", true),
        ("__proto", true),
        ("", false),
        ("1a", false),
        ("a b", false),
        ("while", false),
        ("eval", false),
        ("__residual", false),
        ("__proto__", false),
    ] {
        assert_eq!(rt; tells_name(alloc, spelling)?, wanted, "of {spelling}");
    }
    Ok(())
}

#[test]
fn numbers_have_no_sign(rt: HostRuntime) -> Result<(), Fail> {
    let alloc = rt.alloc();
    for (n, wanted) in [(0, true), (1, true), (-1, false)] {
        let literal = ExprForm::Literal(Primitive::Number(n));
        assert_eq!(rt; tells_expr(alloc, literal)?, wanted);
    }
    Ok(())
}

/// `delete a`
#[test]
fn no_name_is_deleted(rt: HostRuntime) -> Result<(), Fail> {
    let alloc = rt.alloc();
    let deletion = ExprForm::Unary(UnaryOp::Delete, name(alloc, "a")?);
    assert!(rt; !tells_expr(alloc, deletion)?);
    Ok(())
}

/// `if (a) FIRST else ;`, where the first part is `if (a) ;` in braces or without.
fn with_else(alloc: Global, in_braces: bool) -> Result<Stmt, NoMemory> {
    let empty = stmt(alloc, StmtForm::Empty)?;
    let inner = stmt(alloc, StmtForm::If(name(alloc, "a")?, empty, None))?;
    let first = if in_braces {
        stmt(alloc, StmtForm::Block(one(alloc, inner)?))?
    } else {
        inner
    };
    let last = stmt(alloc, StmtForm::Empty)?;
    stmt(alloc, StmtForm::If(name(alloc, "a")?, first, Some(last)))
}

#[test]
fn an_else_belongs_to_the_last_if(rt: HostRuntime) -> Result<(), Fail> {
    let alloc = rt.alloc();
    assert!(rt; tells(alloc, with_else(alloc, true)?)?);
    assert!(rt; !tells(alloc, with_else(alloc, false)?)?);
    Ok(())
}

/// A `break` outside a loop is an early fault.
#[test]
fn early_checks_are_asked(rt: HostRuntime) -> Result<(), Fail> {
    let alloc = rt.alloc();
    assert!(rt; !tells(alloc, stmt(alloc, StmtForm::Break)?)?);
    Ok(())
}

/// A script that names a function by this number, and has one.
fn tells_function(alloc: Global, number: usize) -> Result<bool, NoMemory> {
    let f = Func {
        at: AT,
        name: None,
        params: Seq::new(alloc),
        directive: false,
        body: Seq::new(alloc),
    };
    let value = expr(alloc, ExprForm::Func(FuncNo(number)))?;
    let code = stmt(alloc, StmtForm::Eval(value))?;
    let script = Script {
        directive: false,
        body: one(alloc, code)?,
        funcs: one(alloc, f)?,
    };
    is_readable(alloc, &script)
}

#[test]
fn functions_are_in_order(rt: HostRuntime) -> Result<(), Fail> {
    let alloc = rt.alloc();
    assert!(rt; tells_function(alloc, 0)?);
    assert!(rt; !tells_function(alloc, 1)?);
    Ok(())
}
