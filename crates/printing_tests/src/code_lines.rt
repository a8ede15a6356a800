//! Codes of functions on one line, with some names replaced by their positions.

use crate::rows::read;
use js_printer::code_text;
use js_value::{Bytes, FuncNo, Text};
use std::alloc::Global;
use std::process::Abort;
use std::test::Fail;

/// A text, the number of a function, two names that are replaced, and the function's code.
type Row = (&'static str, usize, [&'static str; 2], &'static str);

/// The names are `%1` and `%2` wherever they are read or assigned to, and nowhere else.
static REPLACED: [Row; 18] = [
    ("function f(){}", 0, ["a", "b"], "function ( ) { }"),
    (
        "function f(){return a+b}",
        0,
        ["a", "b"],
        "function ( ) { return %1 + %2 ; }",
    ),
    (
        "function f(){return a+b}",
        0,
        ["x", "a"],
        "function ( ) { return %2 + b ; }",
    ),
    (
        "function f(){a=b;for(a in b)a}",
        0,
        ["b", "a"],
        "function ( ) { %2 = %1 ; for ( %2 in %1 ) %2 ; }",
    ),
    (
        "function f(){a+=b;a++;--b}",
        0,
        ["a", "b"],
        "function ( ) { %1 += %2 ; %1 ++ ; -- %2 ; }",
    ),
    (
        "function f(){a(b);new a(b)[a]}",
        0,
        ["a", "b"],
        "function ( ) { %1 ( %2 ) ; new %1 ( %2 ) [ %1 ] ; }",
    ),
    (
        "function f(){return a.a}",
        0,
        ["a", "b"],
        "function ( ) { return %1 . a ; }",
    ),
    (
        "function f(){return{a:a,'b':b}}",
        0,
        ["a", "b"],
        "function ( ) { return { a : %1 , b : %2 } ; }",
    ),
    (
        "function f(){return'a'+this.b}",
        0,
        ["a", "b"],
        "function ( ) { return \"a\" + this . b ; }",
    ),
    (
        "function f(){return __residual('number','a',a)}",
        0,
        ["a", "b"],
        "function ( ) { return __residual ( \"number\" , \"a\" , %1 ) ; }",
    ),
    (
        "function f(){return \u{e9}+a}",
        0,
        ["b", "\u{e9}"],
        "function ( ) { return %2 + a ; }",
    ),
    // the first position where a name stands twice
    ("function f(){a}", 0, ["a", "a"], "function ( ) { %1 ; }"),
    (
        "function f(){return function(c){return a}}",
        1,
        ["b", "a"],
        "function ( c ) { return %2 ; }",
    ),
    (
        "a=function g(){a=b}",
        0,
        ["a", "b"],
        "function ( ) { %1 = %2 ; }",
    ),
    (
        "function f(){}o={get a(){a},set a(b){a=b}}",
        2,
        ["a", "b"],
        "function ( b ) { %1 = b ; }",
    ),
    // the function's own name is left out, and is free
    (
        "function f(){return f}",
        0,
        ["f", "a"],
        "function ( ) { return %1 ; }",
    ),
    // there is no such function
    ("", 0, ["a", "b"], "function"),
    ("function f(){}", 1, ["a", "b"], "function"),
];

/// A name that the code around binds stands as it is.
static BOUND: [Row; 11] = [
    (
        "function f(a){a=b}",
        0,
        ["a", "b"],
        "function ( a ) { a = %2 ; }",
    ),
    (
        "function f(){a;var a=b}",
        0,
        ["a", "b"],
        "function ( ) { a ; var a = %2 ; }",
    ),
    (
        "function f(){for(var a in b)a}",
        0,
        ["a", "b"],
        "function ( ) { for ( var a in %2 ) a ; }",
    ),
    (
        "function f(){if(b)while(b){var a}a}",
        0,
        ["a", "b"],
        "function ( ) { if ( %2 ) while ( %2 ) { var a ; } a ; }",
    ),
    // a named expression binds its name inside
    (
        "function f(){return function f(){f}}",
        0,
        ["f", "a"],
        "function ( ) { return function f ( ) { f ; } ; }",
    ),
    (
        "function f(){return[function a(){a},a]}",
        0,
        ["a", "b"],
        "function ( ) { return [ function a ( ) { a ; } , %1 ] ; }",
    ),
    // a declaration binds its name around
    (
        "function f(){f;function f(){f}}",
        0,
        ["f", "a"],
        "function ( ) { f ; function f ( ) { f ; } }",
    ),
    (
        "function f(){function g(b){a=b}b=g}",
        0,
        ["a", "b"],
        "function ( ) { function g ( b ) { %1 = b ; } %2 = g ; }",
    ),
    (
        "function f(a){return function(){return function(b){a(b)}}}",
        0,
        ["a", "b"],
        "function ( a ) { return function ( ) { return function ( b ) { a ( b ) ; } ; } ; }",
    ),
    (
        "function f(){try{a}catch(a){a}a}",
        0,
        ["a", "b"],
        "function ( ) { try { %1 ; } catch ( a ) { a ; } %1 ; }",
    ),
    (
        "function f(){try{}catch(a){try{}catch(b){a=b}a=b}a=b}",
        0,
        ["a", "b"],
        "function ( ) { try { } catch ( a ) { try { } catch ( b ) { a = b ; } a = %2 ; } %1 = %2 ; }",
    ),
];

/// One space stands between two tokens, whatever they are, and parentheses stand as in a text.
static SPACED: [Row; 7] = [
    (
        "function f(){return{get a(){return b},'x y':-1}}",
        0,
        ["b", "a"],
        "function ( ) { return { get a ( ) { return %1 ; } , \"x y\" : - 1 } ; }",
    ),
    (
        "function f(){(a+b)*(-(-c))}",
        0,
        ["a", "b"],
        "function ( ) { ( %1 + %2 ) * - - c ; }",
    ),
    (
        "function f(){({});for((a in b);;);}",
        0,
        ["a", "b"],
        "function ( ) { ( { } ) ; for ( ( %1 in %2 ) ; ; ) ; }",
    ),
    (
        "function f(){return[,(a,b),,]}",
        0,
        ["a", "b"],
        "function ( ) { return [ , ( %1 , %2 ) , , ] ; }",
    ),
    (
        "function f(){switch(a){case b:break;default:}}",
        0,
        ["a", "b"],
        "function ( ) { switch ( %1 ) { case %2 : break ; default : } }",
    ),
    (
        "function f(){do;while(a);if(b){}else throw a}",
        0,
        ["a", "b"],
        "function ( ) { do ; while ( %1 ) ; if ( %2 ) { } else throw %1 ; }",
    ),
    (
        "function f(c,d){var e=(1).a,g}",
        0,
        ["a", "b"],
        "function ( c , d ) { var e = ( 1 ) . a , g ; }",
    ),
];

fn code(alloc: Global, source: &str, f: usize, names: &[&'static str]) -> Result<Bytes, Fail> {
    let script = read(alloc, source.as_bytes()).ok().ok_or("refused")?;
    let mut texts = Vec::new(alloc);
    for name in names {
        texts.push(Text::from_str(alloc, name)?)?;
    }
    Ok(code_text(alloc, &script, FuncNo(f), texts.as_slice())?)
}

fn all_written(rt: &impl Abort, alloc: Global, rows: &[Row]) -> Result<(), Fail> {
    for (source, f, names, wanted) in rows {
        let got = code(alloc, source, *f, names)?;
        assert_eq!(rt; got.as_slice(), wanted.as_bytes(), "of {source}");
    }
    Ok(())
}

#[test]
fn writes_code_lines(rt: HostRuntime) -> Result<(), Fail> {
    let alloc = rt.alloc();
    all_written(&rt, alloc, &REPLACED)?;
    all_written(&rt, alloc, &BOUND)?;
    all_written(&rt, alloc, &SPACED)
}
