//! Strict code, which no reading gives: its text and its code on one line, worked out by hand.

use js_printer::{code_text, print};
use js_tree::{Expr, ExprForm, Func, Script, Stmt, StmtForm};
use js_value::{Box, FuncNo, NoMemory, Place, Seq, Text};
use std::alloc::Global;
use std::test::Fail;

const START: Place = Place(0);

fn one<T: Drop>(alloc: Global, item: T) -> Result<Seq<T>, NoMemory> {
    let mut all = Seq::new(alloc);
    all.push(item)?;
    Ok(all)
}

fn evaluation(alloc: Global, form: ExprForm) -> Result<Stmt, NoMemory> {
    let value = Expr {
        at: START,
        form: Box::new(alloc, form)?,
    };
    Ok(Stmt {
        at: START,
        form: Box::new(alloc, StmtForm::Eval(value))?,
    })
}

/// A strict script whose only statement is a strict function, which reads a name.
fn strict(alloc: Global, name: Text) -> Result<Script, NoMemory> {
    let f = Func {
        at: START,
        name: None,
        params: Seq::new(alloc),
        directive: true,
        body: one(alloc, evaluation(alloc, ExprForm::Name(name))?)?,
    };
    Ok(Script {
        directive: true,
        body: one(alloc, evaluation(alloc, ExprForm::Func(FuncNo(0)))?)?,
        funcs: one(alloc, f)?,
    })
}

#[test]
fn writes_strict_code(rt: HostRuntime) -> Result<(), Fail> {
    let alloc = rt.alloc();
    let script = strict(alloc, Text::from_str(alloc, "a")?)?;
    let text = print(alloc, &script)?;
    assert_eq!(rt;
        text.as_slice(),
        "\"use strict\";\n(function () {\n  \"use strict\";\n  a;\n});\n".as_bytes()
    );
    let names = one(alloc, Text::from_str(alloc, "a")?)?;
    let line = code_text(alloc, &script, FuncNo(0), names.as_slice())?;
    assert_eq!(rt;
        line.as_slice(),
        "function ( ) { \"use strict\" ; %1 ; }".as_bytes()
    );
    Ok(())
}
