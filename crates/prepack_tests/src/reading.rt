use crate::program::{NO_FAULTS, Ran, eval, run};
use prepack_core::Status;
use std::alloc::Global;
use std::test::Fail;

/// Whether a run wrote nothing but this line, and ended with this status.
fn is_refused(ran: &Ran, status: Status, line: &str) -> bool {
    ran.status == status && ran.out.bytes().is_empty() && ran.diag.bytes() == line.as_bytes()
}

#[test]
fn no_scripts(rt: HostRuntime) -> Result<(), Fail> {
    for (text, line) in [
        ("var x = {", "syntax at 9\n"),
        ("return 1;", "syntax at 0\n"),
        ("var;", "syntax at 3\n"),
        ("var a,;", "syntax at 6\n"),
        ("var a b;", "syntax at 6\n"),
        ("var a = ;", "syntax at 8\n"),
        ("var a = 1 +;", "syntax at 11\n"),
        ("var a = 1--2;", "syntax at 8\n"),
        ("var a = --2;", "syntax at 10\n"),
        ("var a = 1b;", "syntax at 9\n"),
        ("var if = 1;", "syntax at 4\n"),
        ("var a = 1; break;", "syntax at 11\n"),
    ] {
        let ran = eval(rt.alloc(), text, 4096, NO_FAULTS)?;
        assert!(rt; is_refused(&ran, Status::Syntax, line), "at {text}");
    }
    Ok(())
}

#[test]
fn no_utf8(rt: HostRuntime) -> Result<(), Fail> {
    let alloc = rt.alloc();
    let words = vec![in alloc; String::from_str(alloc, "eval")?]?;
    let bytes = Vec::from_slice(alloc, b"var \xff")?;
    let ran = run(alloc, words, bytes, 4096, NO_FAULTS)?;
    assert_eq!(rt; ran.status, Status::Syntax);
    assert_eq!(rt; ran.out.bytes(), b"".as_slice());
    assert_eq!(rt; ran.diag.bytes(), b"syntax at 4\n".as_slice());
    Ok(())
}

#[test]
fn unsupported(rt: HostRuntime) -> Result<(), Fail> {
    for (text, line) in [
        ("with (a) b;", "unsupported at 0: with\n"),
        ("debugger;", "unsupported at 0: debugger\n"),
        ("a: b;", "unsupported at 0: label\n"),
        ("var x = /a/;", "unsupported at 8: regular expression\n"),
        ("var eval = 1;", "unsupported at 4: eval\n"),
        ("var arguments;", "unsupported at 4: arguments\n"),
        ("var x = 01;", "unsupported at 8: octal literal\n"),
        ("var a = 007;", "unsupported at 8: octal literal\n"),
        ("var s = \"\\1\";", "unsupported at 9: octal escape\n"),
        ("var a = 1.5;", "unsupported at 8: number\n"),
        ("var a = 9007199254740992;", "unsupported at 8: number\n"),
        ("\\u0061;", "unsupported at 0: identifier escape\n"),
        (
            "{ function f() {} }",
            "unsupported at 2: function in block\n",
        ),
        (
            "for (var i = 0 in o) ;",
            "unsupported at 13: for-in initialiser\n",
        ),
        ("delete a;", "unsupported at 0: delete of a name\n"),
        ("\"use strict\";", "unsupported at 0: strict code\n"),
        ("var __proto__ = 1;", "unsupported at 4: __proto__\n"),
        ("var __abstract;", "unsupported at 4: abstract form\n"),
        ("__residual(1);", "unsupported at 0: residual form\n"),
        (
            "__abstract(\"number\", \"n\"); __abstract(\"string\", \"n\");",
            "unsupported at 27: abstract type\n",
        ),
        (
            "var f = function g() { g = 1; };",
            "unsupported at 23: own name\n",
        ),
    ] {
        let ran = eval(rt.alloc(), text, 4096, NO_FAULTS)?;
        assert!(rt; is_refused(&ran, Status::Unsupported, line), "at {text}");
    }
    Ok(())
}

#[test]
fn not_built(rt: HostRuntime) -> Result<(), Fail> {
    for text in [
        "var x = 1 * 2;",
        "x = 1;",
        ";",
        "var a = +1;",
        "var a = - -1;",
        "var a = b;",
        "var a = 1 + undefined;",
        "var Object = 1;",
        "var JSON;",
        "var a = 1+1+1+1+1+1+1+1+1+1+1+1+1+1+1+1+1+1+1+1+1;",
        "var a = 1+1+1+1+1+1+1+1+1+1+(1+1+1+1+1+1+1+1+1+1+1);",
        "var \u{e9} = 1;",
        "function f() {}",
    ] {
        let ran = eval(rt.alloc(), text, 4096, NO_FAULTS)?;
        let line = "unsupported at 0: not built\n";
        assert!(rt; is_refused(&ran, Status::Unsupported, line), "at {text}");
    }
    Ok(())
}

/// `var x = `, a number of signs, and what follows them.
fn nested(alloc: Global, sign: &str, count: usize, behind: &str) -> Result<Ran, Fail> {
    let mut text = String::from_str(alloc, "var x = ")?;
    for _ in 0..count {
        text.push_str(sign)?;
    }
    text.push_str(behind)?;
    eval(alloc, &text, 4096, NO_FAULTS)
}

#[test]
fn prefix_operators(rt: HostRuntime) -> Result<(), Fail> {
    for (count, status, line) in [
        (198, Status::Unsupported, "unsupported at 0: not built\n"),
        (199, Status::Nested, "nested at 0\n"),
    ] {
        let ran = nested(rt.alloc(), "!", count, "0;")?;
        assert!(rt; is_refused(&ran, status, line), "at {count}");
    }
    Ok(())
}

#[test]
fn open_parentheses(rt: HostRuntime) -> Result<(), Fail> {
    for (count, status, line) in [
        (199, Status::Syntax, "syntax at 208\n"),
        (200, Status::Nested, "nested at 208\n"),
    ] {
        let ran = nested(rt.alloc(), "(", count, "1")?;
        assert!(rt; is_refused(&ran, status, line), "at {count}");
    }
    Ok(())
}

const MODULE: &str = "var settings = {debug: __abstract(\"boolean\", \"debug\"), retries: 3};
var registry = {};
function Plugin(name, order) {
  this.name = name;
  this.order = order;
}
Plugin.prototype.describe = function () {
  return this.name + \"#\" + this.order;
};
(function (names) {
  for (var i = 0; i < names.length; i++) {
    registry[names[i]] = new Plugin(names[i], i);
  }
})([\"log\", \"auth\"]);
var started = settings.debug ? __residual(\"number\", \"now\") : 0;
var labels = Object.keys(registry).map(function (k) {
  return registry[k].describe();
}).join(\" \");
";

/// What becomes of the module where it is cut off: it is no script at its end, or at the quote of a string without an end, or it is
/// read and not built.
#[derive(Clone, Copy, Debug)]
enum Cut {
    End,
    Quote(usize),
    Read,
}

/// From which length on what becomes of it, worked out by hand. Shorter fronts are simple scripts or names.
static CUTS: [(usize, Cut); 55] = [
    (14, Cut::End),
    (35, Cut::Quote(34)),
    (43, Cut::End),
    (46, Cut::Quote(45)),
    (52, Cut::End),
    (66, Cut::Read),
    (71, Cut::End),
    (73, Cut::Read),
    (82, Cut::End),
    (85, Cut::Read),
    (95, Cut::End),
    (161, Cut::Read),
    (169, Cut::End),
    (170, Cut::Read),
    (179, Cut::End),
    (180, Cut::Read),
    (189, Cut::End),
    (191, Cut::Read),
    (198, Cut::End),
    (226, Cut::Quote(225)),
    (228, Cut::End),
    (244, Cut::Read),
    (247, Cut::End),
    (365, Cut::Read),
    (366, Cut::End),
    (368, Cut::Quote(367)),
    (372, Cut::End),
    (375, Cut::Quote(374)),
    (380, Cut::End),
    (382, Cut::Read),
    (387, Cut::End),
    (389, Cut::Read),
    (397, Cut::End),
    (399, Cut::Read),
    (407, Cut::End),
    (408, Cut::Read),
    (414, Cut::End),
    (427, Cut::Quote(426)),
    (434, Cut::End),
    (437, Cut::Quote(436)),
    (441, Cut::End),
    (446, Cut::Read),
    (451, Cut::End),
    (453, Cut::Read),
    (460, Cut::End),
    (462, Cut::Read),
    (468, Cut::End),
    (469, Cut::Read),
    (473, Cut::End),
    (482, Cut::Read),
    (483, Cut::End),
    (484, Cut::Read),
    (487, Cut::End),
    (537, Cut::Read),
    (538, Cut::End),
];

/// The same behind `.join`.
static LAST_CUTS: [(usize, Cut); 5] = [
    (539, Cut::Read),
    (543, Cut::End),
    (544, Cut::Quote(543)),
    (546, Cut::End),
    (547, Cut::Read),
];

/// What becomes of a front of this length.
fn cut_at(len: usize) -> Cut {
    let mut found = Cut::End;
    for (from, cut) in CUTS.iter().chain(LAST_CUTS.iter()) {
        if *from <= len {
            found = *cut;
        }
    }
    found
}

#[test]
fn fronts_of_a_module(rt: HostRuntime) -> Result<(), Fail> {
    let alloc = rt.alloc();
    assert_eq!(rt; MODULE.len(), 549);
    for len in 14..MODULE.len() + 1 {
        let ran = eval(alloc, MODULE.get(..len).unwrap_or(""), 4096, NO_FAULTS)?;
        let (status, line) = match cut_at(len) {
            Cut::End => (Status::Syntax, format!(in alloc; "syntax at {len}\n")?),
            Cut::Quote(at) => (Status::Syntax, format!(in alloc; "syntax at {at}\n")?),
            Cut::Read => (
                Status::Unsupported,
                String::from_str(alloc, "unsupported at 0: not built\n")?,
            ),
        };
        assert!(rt; is_refused(&ran, status, line.as_str()), "at {len}");
    }
    Ok(())
}
