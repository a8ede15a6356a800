//! The early checks.

use crate::texts::{read, refusal};
use js_scope::check;
use std::test::Fail;

/// A text, and its early fault with the least place: nothing where it has none.
type Row = (&'static str, &'static str);

static FAULTS: [Row; 17] = [
    (";", ""),
    ("break ; return", "syntax at 0"),
    ("return 1;", "syntax at 0"),
    ("{ continue }", "syntax at 2"),
    ("while ( a ) break", ""),
    ("switch ( a ) { case b : break }", ""),
    ("switch ( a ) { case b : continue }", "syntax at 24"),
    ("while ( a ) ( function ( ) { break } )", "syntax at 29"),
    ("function a ( ) { return }", ""),
    ("( { a : 1 , get a ( ) { } } )", "syntax at 16"),
    ("( { a : 1 , a : this } )", ""),
    (
        "x = function a ( b ) { a = x }",
        "unsupported at 23: OwnName",
    ),
    ("x = function a ( a ) { a = x }", ""),
    (
        "var f = function g() { g = 1; };",
        "unsupported at 23: OwnName",
    ),
    ("function g ( ) { g = 1 }", ""),
    (
        "__abstract ( 'number' , 'n' ) , __abstract ( 'boolean' , 'n' )",
        "unsupported at 32: AbstractType",
    ),
    (
        "__abstract ( 'number' , 'n' ) , __abstract ( 'number' , 'n' )",
        "",
    ),
];

#[test]
fn checks_scripts(rt: HostRuntime) -> Result<(), Fail> {
    let alloc = rt.alloc();
    for (text, wanted) in &FAULTS {
        let got = refusal(alloc, check(alloc, &read(alloc, text)?))?;
        assert_eq!(rt; got.as_str(), *wanted, "of {text}");
    }
    Ok(())
}
