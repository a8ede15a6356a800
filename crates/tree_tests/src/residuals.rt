//! Residuals and sources.

use crate::texts::read;
use residual_form::{creations, is_fresh, is_residual};
use std::test::Fail;

/// A text, whether it is in residual form, and how many objects its wrapper makes.
type Row = (&'static str, bool, u64);

static FORMS: [Row; 7] = [
    (
        "(function () { var t; t = [{ a: 1 }]; this.a = t; }).call(this);",
        true,
        2,
    ),
    (
        "(function () { var t; t = [{ a: 1 }]; this.a = 1; }).call(this);",
        false,
        0,
    ),
    (
        "(function () { var t; t = this.Object.create; this.a = t(null); }).call(this);",
        true,
        1,
    ),
    (
        "(function () { var t; t = 1; this.a = function () { return t; }; }).call(this);",
        true,
        1,
    ),
    ("var a = 1;", true, 0),
    ("var a = b;", false, 0),
    ("", true, 0),
];

#[test]
fn tells_residuals(rt: HostRuntime) -> Result<(), Fail> {
    let alloc = rt.alloc();
    for (text, wanted, made) in &FORMS {
        let script = read(alloc, text)?;
        assert_eq!(rt; is_residual(&script), *wanted, "of {text}");
        assert_eq!(rt; creations(&script), *made, "of {text}");
    }
    Ok(())
}

const KEEPS_T: &str = "(function () { var t; t = 1; this.a = t; }).call(this);";

/// A residual, a source, and whether the temporaries of the one are none of the other's names.
static FRESH: [(&str, &str, bool); 5] = [
    (KEEPS_T, "var v;", true),
    (KEEPS_T, "var t;", false),
    (KEEPS_T, "function f() { t; }", false),
    (KEEPS_T, "this.t = 1;", true),
    ("var a = 1;", "var a = 1;", true),
];

#[test]
fn tells_fresh_temporaries(rt: HostRuntime) -> Result<(), Fail> {
    let alloc = rt.alloc();
    for (residual, source, wanted) in &FRESH {
        let fresh = is_fresh(&read(alloc, residual)?, &read(alloc, source)?);
        assert_eq!(rt; fresh, *wanted, "of {residual} for {source}");
    }
    Ok(())
}
