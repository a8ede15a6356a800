//! Cases of reading, worked out by hand: what is read, what is refused and where, and which texts have one tree.

ghost use Rattle.std.specs.Prelude.{◌<◌, length};

use js_lex::lex;
use js_parse::parse;
use js_tree::{ReadRefused, Script};
use js_value::Place;
use std::alloc::Global;
use std::fmt::Write;
use std::process::Abort;
use std::test::Fail;

/// A text, how many parts may be open and how high its tree may be, and why it isn't read: nothing where it is.
type Case = (&'static [u8], u32, &'static str);

/// The first token that can't go on.
static MISPLACED: [Case; 25] = [
    (b"switch ( a ) { default : default : }", 50, "syntax at 25"),
    (b"do a while ( b )", 50, "syntax at 5"),
    (b"{ if ( a ) }", 50, "syntax at 11"),
    (b"a ? b , c : d", 50, "syntax at 6"),
    (b"x = { get }", 50, "syntax at 10"),
    (b"x = { get ( ) { } }", 50, "syntax at 10"),
    (b"x = { \"get\" a ( ) { } }", 50, "syntax at 12"),
    (b"( a \n ++ )", 50, "syntax at 6"),
    (b"a \n ++", 50, "syntax at 6"),
    (b"for ( var a = ) in b ) ;", 50, "syntax at 14"),
    (b"a eval", 50, "syntax at 2"),
    (b"return ; )", 50, "syntax at 9"),
    (b"__abstract ( \"number\" , \"n\" ) = a", 50, "syntax at 0"),
    (b"__residual ( \"number\" , \"a\" ) ++", 50, "syntax at 0"),
    (
        b"for ( __abstract ( \"number\" , \"n\" ) in a ) ;",
        50,
        "syntax at 6",
    ),
    (b"throw \n a", 50, "syntax at 8"),
    (b"a b", 50, "syntax at 2"),
    (b"", 50, ""),
    (b"var", 50, "syntax at 3"),
    (b"try { }", 50, "syntax at 7"),
    (b"if ( a ) else ;", 50, "syntax at 9"),
    (b"a ++ ++", 50, "syntax at 5"),
    (b"1 ++ b", 50, "syntax at 0"),
    (b"a + b = c", 50, "syntax at 0"),
    (b"__residual ( \"number\" , \"a\" , )", 50, "syntax at 30"),
];

/// What is refused by name.
static UNSUPPORTED: [Case; 28] = [
    (b"var a \n / b", 50, "unsupported at 8: RegularExpression"),
    (
        b"do ; while ( a ) \n / b",
        50,
        "unsupported at 19: RegularExpression",
    ),
    (b"a \n : b", 50, "unsupported at 0: Label"),
    (b"break __abstract", 50, "unsupported at 6: Label"),
    (
        b"__abstract ( \"object\"",
        50,
        "unsupported at 0: AbstractForm",
    ),
    (b"__abstract ( \"number\" , \"n\"", 50, "syntax at 27"),
    (
        b"for ( var a = b \n in c ) ;",
        50,
        "unsupported at 14: ForInInitialiser",
    ),
    (b"delete a = b", 50, "unsupported at 0: DeleteName"),
    (
        b"do function a ( ) { } while ( b )",
        50,
        "unsupported at 3: FunctionInBlock",
    ),
    (
        b"if ( a ) ; else function b ( ) { }",
        50,
        "unsupported at 16: FunctionInBlock",
    ),
    (
        b"try { } catch ( a ) { function b ( ) { } }",
        50,
        "unsupported at 22: FunctionInBlock",
    ),
    (b"with ( a ) b", 50, "unsupported at 0: With"),
    (b"debugger", 50, "unsupported at 0: Debugger"),
    (b"a : b", 50, "unsupported at 0: Label"),
    (b"eval : b", 50, "unsupported at 0: Eval"),
    (b"__abstract : 1", 50, "unsupported at 0: Label"),
    (b"arguments", 50, "unsupported at 0: Arguments"),
    (b"\"use strict\"", 50, "unsupported at 0: StrictCode"),
    (b"'use strict' ; a", 50, "unsupported at 0: StrictCode"),
    (
        b"\"a\" ; \"use strict\"",
        50,
        "unsupported at 6: StrictCode",
    ),
    (b"\"use strict\" + a", 50, ""),
    (b"( \"use strict\" )", 50, ""),
    (b"\"use\\x20strict\"", 50, ""),
    (b"a ; \"use strict\"", 50, ""),
    (
        b"var a = function eval ( ) { }",
        50,
        "unsupported at 17: Eval",
    ),
    (
        b"try { } catch ( arguments ) { }",
        50,
        "unsupported at 16: Arguments",
    ),
    (b"__abstract", 50, "syntax at 10"),
    (
        b"__abstract ( \"number\" , 1 )",
        50,
        "unsupported at 0: AbstractForm",
    ),
];

/// What is read.
static READ: [Case; 21] = [
    (b"x = { get 1 ( ) { } }", 50, ""),
    (b"var a \n + b", 50, ""),
    (b"var a \n - b", 50, ""),
    (b"do ; while ( a ) \n + b", 50, ""),
    (b"do ; while ( a ) \n - b", 50, ""),
    (b"do ; while ( a ) \n [ b ]", 50, ""),
    (b"__residual ( \"number\" , \"a\" , b in c )", 50, ""),
    (b"a [ b , c ]", 50, ""),
    (b"if ( a , b ) ;", 50, ""),
    (b"throw a , b", 50, ""),
    (b"return a , b", 50, ""),
    (b"switch ( a ) { case b , c : }", 50, ""),
    (b"for ( ; a , b ; c , d ) ;", 50, ""),
    (b"{ x = function ( ) { } }", 50, ""),
    (b"for ( var a = ( b in c ) ; ; ) ;", 50, ""),
    (b"x = { get : 1 , set : 2 }", 50, ""),
    (b"a . eval", 50, ""),
    (b"x = { arguments : 1 }", 50, ""),
    (b"while ( a ) b", 50, ""),
    (b"a \n ++ b", 50, ""),
    (b"continue", 50, ""),
];

/// How many parts may be open at once.
static OPEN_PARTS: [Case; 16] = [
    (b"do ; while ( ( a ) )", 2, "nested at 15"),
    (b"do ; while ( ( a ) )", 3, ""),
    (b"if ( a ) ; else { ; }", 2, "nested at 18"),
    (b"for ( ; ; ) { ; }", 2, "nested at 14"),
    (b"while ( a ) { ; }", 2, "nested at 14"),
    (b"a += b", 1, "nested at 5"),
    (b"a = ( b )", 1, "nested at 4"),
    (b"- eval", 1, "nested at 2"),
    (b"{ debugger }", 1, "nested at 2"),
    (b"a + { set b ( c ) { } }", 1, "nested at 14"),
    (b"{ ; }", 2, ""),
    (b"{ ; }", 1, "nested at 2"),
    (b"( )", 1, "nested at 2"),
    (b"f ( )", 3, ""),
    (b"f ( )", 2, "nested at 0"),
    (b"f ( )", 1, "nested at 4"),
];

/// How high a tree may be.
static HEIGHTS: [Case; 73] = [
    (b"a , b , c", 3, "nested at 0"),
    (b"a , b , c", 4, ""),
    (b"a && b || c", 3, "nested at 0"),
    (b"a && b || c", 4, ""),
    (b"a + b * c", 3, "nested at 0"),
    (b"a + b * c", 4, ""),
    (b"a . b . c", 3, "nested at 0"),
    (b"a . b . c", 4, ""),
    (b"a [ 0 ] [ 1 ]", 3, "nested at 0"),
    (b"a [ 0 ] [ 1 ]", 4, ""),
    (b"a ( ) ( )", 3, "nested at 0"),
    (b"a ( ) ( )", 4, ""),
    (b"new new a", 3, "nested at 0"),
    (b"new new a", 4, ""),
    (b"a ( b . c )", 3, "nested at 0"),
    (b"a ( b . c )", 4, ""),
    (b"var x = function ( ) { a } ;", 3, "nested at 0"),
    (b"var x = function ( ) { a } ;", 4, ""),
    (b"var x = { get a ( ) { b } } ;", 3, "nested at 0"),
    (b"var x = { get a ( ) { b } } ;", 4, ""),
    (b"function a ( ) { b + c }", 3, "nested at 0"),
    (b"function a ( ) { b + c }", 4, ""),
    (b"a = b", 2, "nested at 0"),
    (b"a = b", 3, ""),
    (b"a ? b : c", 2, "nested at 0"),
    (b"a ? b : c", 3, ""),
    (b"a ++", 2, "nested at 0"),
    (b"a ++", 3, ""),
    (b"- a", 2, "nested at 0"),
    (b"- a", 3, ""),
    (b"[ a ]", 2, "nested at 0"),
    (b"[ a ]", 3, ""),
    (b"__residual ( \"number\" , \"a\" , b )", 2, "nested at 0"),
    (b"__residual ( \"number\" , \"a\" , b )", 3, ""),
    (b"{ a }", 2, "nested at 0"),
    (b"{ a }", 3, ""),
    (b"if ( a ) b", 2, "nested at 0"),
    (b"if ( a ) b", 3, ""),
    (b"do a ; while ( b )", 2, "nested at 0"),
    (b"do a ; while ( b )", 3, ""),
    (b"while ( a ) b", 2, "nested at 0"),
    (b"while ( a ) b", 3, ""),
    (b"for ( ; ; ) a", 2, "nested at 0"),
    (b"for ( ; ; ) a", 3, ""),
    (b"for ( ; ; a . b ) ;", 2, "nested at 0"),
    (b"for ( ; ; a . b ) ;", 3, ""),
    (b"for ( var a = b . c ; ; ) ;", 2, "nested at 0"),
    (b"for ( var a = b . c ; ; ) ;", 3, ""),
    (b"for ( a in b ) c", 2, "nested at 0"),
    (b"for ( a in b ) c", 3, ""),
    (b"switch ( a ) { default : b }", 2, "nested at 0"),
    (b"switch ( a ) { default : b }", 3, ""),
    (b"try { a } finally { }", 2, "nested at 0"),
    (b"try { a } finally { }", 3, ""),
    (b"try { } catch ( a ) { b }", 2, "nested at 0"),
    (b"try { } catch ( a ) { b }", 3, ""),
    (b"var x = { a : 0 } ;", 2, "nested at 0"),
    (b"var x = { a : 0 } ;", 3, ""),
    (b"throw a", 1, "nested at 0"),
    (b"throw a", 2, ""),
    (b"( a )", 2, ""),
    (b"[ ]", 2, ""),
    (b"__abstract ( \"number\" , \"n\" )", 2, ""),
    (b"switch ( a ) { case b : ; }", 2, ""),
    (b"try { ; } finally { }", 2, ""),
    (b"a + b . c . d", 2, "nested at 4"),
    (b"( a + b ) + c", 3, "nested at 2"),
    (b"1 \n : b", 1, "syntax at 4"),
    (b"function a ( ) { b . c . d }", 5, ""),
    (b"function a ( ) { b . c . d }", 4, "nested at 0"),
    (b"a + { get b ( ) { c . d . e } }", 4, "nested at 4"),
    (b"a + { get b ( ) { c . d . e } }", 6, "nested at 0"),
    (b"a + { get b ( ) { c . d . e } }", 7, ""),
];

/// Texts that have one tree, with all its places.
static SAME_TREES: [(&'static [u8], &'static [u8]); 28] = [
    (b"a \n + b", b"a   + b"),
    (b"a \n ( b )", b"a   ( b )"),
    (b"a \n [ b ]", b"a   [ b ]"),
    (b"a ++ \n + b", b"a ++   + b"),
    (b"var a = b \n ( c )", b"var a = b   ( c )"),
    (b"return \n a", b"return ; a"),
    (b"return \n ;", b"return ; ;"),
    (b"break \n ;", b"break ; ;"),
    (b"continue \n ;", b"continue ; ;"),
    (b"a \n ;", b"a   ;"),
    (b"var a \n ;", b"var a   ;"),
    (b"throw a \n ;", b"throw a   ;"),
    (b"do ; while ( a ) \n ;", b"do ; while ( a )   ;"),
    (b"a \n ++ b", b"a ; ++ b"),
    (b"a ++ \n ( b )", b"a ++ ; ( b )"),
    (b"var a \n ( b )", b"var a ; ( b )"),
    (b"do ; while ( a ) \n ( b )", b"do ; while ( a ) ; ( b )"),
    (b"( a ^ b ) ^ c", b"  a ^ b   ^ c"),
    (b"( a & b ) & c", b"  a & b   & c"),
    (b"( a - b ) - c", b"  a - b   - c"),
    (b"a = ( b = c )", b"a =   b = c  "),
    (b"a + ( b * c )", b"a +   b * c  "),
    (b"a || ( b && c )", b"a ||   b && c  "),
    (b"( a ? b : c ) , d", b"  a ? b : c   , d"),
    (b"new ( a . b ) ( c )", b"new   a . b   ( c )"),
    (b"- ( a ++ )", b"-   a ++  "),
    (b"typeof ( typeof a )", b"typeof   typeof a  "),
    (b"a ? b : ( c ? d : e )", b"a ? b :   c ? d : e  "),
];

fn answer(alloc: Global, text: &[u8], limit: u32) -> Result<Script, ReadRefused>
    requires { length text.now < 1000 }
{
    parse(alloc, &lex(alloc, text)?, limit)
}

pub fn refusal(alloc: Global, answer: Result<Script, ReadRefused>) -> Result<String, Fail> {
    let mut out = String::new(alloc);
    match answer {
        Ok(_) => {}
        Err(ReadRefused::Syntax(Place(at))) => write!(out, "syntax at {at}")?,
        Err(ReadRefused::Unsupported(Place(at), feature)) => {
            write!(out, "unsupported at {at}: {feature:?}")?
        }
        Err(ReadRefused::Nested(Place(at))) => write!(out, "nested at {at}")?,
        Err(ReadRefused::NoMemory) => out.push_str("no memory")?,
    }
    Ok(out)
}

fn all_read(rt: &impl Abort, alloc: Global, cases: &[Case]) -> Result<(), Fail> {
    for (text, limit, wanted) in cases {
        assert!(rt; text.len() < 1000);
        let got = refusal(alloc, answer(alloc, text, *limit))?;
        assert_eq!(rt; got.as_str(), *wanted, "of {text:?} within {limit}");
    }
    Ok(())
}

#[test]
fn reads_texts(rt: HostRuntime) -> Result<(), Fail> {
    let alloc = rt.alloc();
    all_read(&rt, alloc, &MISPLACED)?;
    all_read(&rt, alloc, &UNSUPPORTED)?;
    all_read(&rt, alloc, &READ)?;
    all_read(&rt, alloc, &OPEN_PARTS)?;
    all_read(&rt, alloc, &HEIGHTS)?;
    Ok(())
}

fn tree(alloc: Global, text: &[u8]) -> Result<String, Fail>
    requires { length text.now < 1000 }
{
    let script = answer(alloc, text, 50).ok().ok_or("refused")?;
    let mut out = String::new(alloc);
    write!(out, "{script:?}")?;
    Ok(out)
}

#[test]
fn groups_alike(rt: HostRuntime) -> Result<(), Fail> {
    let alloc = rt.alloc();
    for (a, b) in SAME_TREES {
        assert!(rt; a.len() < 1000);
        assert!(rt; b.len() < 1000);
        let (left, right) = (tree(alloc, a)?, tree(alloc, b)?);
        assert_eq!(rt; left.as_str(), right.as_str(), "of {a:?} and {b:?}");
    }
    Ok(())
}
