//! Which names code declares, and which it only mentions.

use crate::texts::{listed, read};
use js_scope::{FreeNames, free_names, hoisted};
use js_value::FuncNo;
use std::test::Fail;

/// A text, the number of a function or none for the global code, the variables that it declares, and the functions.
type Hoisted = (&'static str, Option<usize>, &'static str, &'static [FuncNo]);

const HOISTING: &str =
    "function f ( ) { try { } catch ( e ) { var w } } while ( a ) var x ; for ( var y in a ) var x";

static HOISTED: [Hoisted; 3] = [
    (HOISTING, None, "\"x\" \"y\"", &[FuncNo(0)]),
    (HOISTING, Some(0), "\"w\"", &[]),
    (HOISTING, Some(1), "", &[]),
];

#[test]
fn hoists_names(rt: HostRuntime) -> Result<(), Fail> {
    let alloc = rt.alloc();
    for (text, f, vars, functions) in &HOISTED {
        let found = hoisted(alloc, &read(alloc, text)?, f.map(FuncNo))?;
        assert_eq!(rt;
            listed(alloc, found.vars.as_slice())?.as_str(),
            *vars,
            "of {f:?} of {text}"
        );
        assert_eq!(rt;
            found.functions.as_slice(),
            *functions,
            "of {f:?} of {text}"
        );
    }
    Ok(())
}

/// A text, the number of a function, and its free names.
type Free = (&'static str, usize, &'static str);

const NESTED: &str = "function f ( a ) { a ; x = function g ( ) { g ; c ; a } }";

static FREE: [Free; 3] = [
    (NESTED, 0, "\"x\" \"c\""),
    (NESTED, 1, "\"g\" \"c\" \"a\""),
    (NESTED, 2, ""),
];

#[test]
fn lists_free_names(rt: HostRuntime) -> Result<(), Fail> {
    let alloc = rt.alloc();
    for (text, f, wanted) in &FREE {
        let script = read(alloc, text)?;
        let found = free_names(alloc, &script, FuncNo(*f))?;
        let alone = listed(alloc, found.as_slice())?;
        assert_eq!(rt; alone.as_str(), *wanted, "of {f} of {text}");
        let all = FreeNames::new(alloc, &script)?;
        let among = listed(alloc, all.of(FuncNo(*f)))?;
        assert_eq!(rt; among.as_str(), *wanted, "of {f} of {text}");
    }
    Ok(())
}
