//! Functions alone.

use crate::texts::read;
use js_printer::print;
use js_tree::Script;
use js_value::FuncNo;
use lone_functions::alone;
use std::alloc::Global;
use std::fmt::Write;
use std::test::Fail;

/// A text, the number of a function, and how the function alone is printed.
type Row = (&'static str, usize, &'static str);

const NESTED: &str = "function f ( a ) { function g ( ) { } a } function h ( ) { }";

static ALONE: [Row; 4] = [
    (NESTED, 0, "(function (a) {\n  function g() {}\n  a;\n});\n"),
    (NESTED, 1, "(function () {});\n"),
    (NESTED, 2, "(function () {});\n"),
    (
        "( function ( ) { } ) ; ( function ( ) { ( { get x ( ) { a } } ) } )",
        1,
        "(function () {\n  ({get x() {\n    a;\n  }});\n});\n",
    ),
];

#[test]
fn functions_stand_alone(rt: HostRuntime) -> Result<(), Fail> {
    let alloc = rt.alloc();
    for (text, f, wanted) in &ALONE {
        let got = print(alloc, &alone(alloc, &read(alloc, text)?, FuncNo(*f))?)?;
        assert_eq!(rt; got.as_slice(), wanted.as_bytes(), "of {f} of {text}");
    }
    Ok(())
}

/// A tree with all its places.
fn shown(alloc: Global, script: &Script) -> Result<String, Fail> {
    let mut out = String::new(alloc);
    write!(out, "{script:?}")?;
    Ok(out)
}

/// A function alone has no places left, and its functions are numbered from 0.
#[test]
fn what_is_alone_stays(rt: HostRuntime) -> Result<(), Fail> {
    let alloc = rt.alloc();
    for (text, f, _) in &ALONE {
        let once = alone(alloc, &read(alloc, text)?, FuncNo(*f))?;
        let twice = alone(alloc, &once, FuncNo(0))?;
        assert_eq!(rt;
            shown(alloc, &twice)?.as_str(),
            shown(alloc, &once)?.as_str()
        );
    }
    Ok(())
}
