//! Counts of nodes and of host calls, and which scripts are closed and flat.

use crate::texts::read;
use js_tree::{host_forms, is_closed, is_flat, nodes};
use std::test::Fail;

/// A text, how many nodes and how many host calls it has, whether it is closed, and whether it is flat.
type Row = (&'static str, u64, u64, bool, bool);

static COUNTS: [Row; 16] = [
    ("", 0, 0, true, true),
    (";", 1, 0, true, true),
    ("var x = 1 + 2;", 4, 0, true, true),
    ("__abstract('number', 'a');", 2, 0, false, true),
    ("__residual('number', 'a');", 2, 1, false, true),
    (
        "__residual('number', 'a', __residual('number', 'b'));",
        3,
        2,
        false,
        true,
    ),
    (
        "__residual('number', 'a'); (function () { __residual('number', 'b'); });",
        6,
        2,
        false,
        true,
    ),
    (
        "; (function () { __residual('number', 'b'); });",
        5,
        1,
        false,
        true,
    ),
    ("a();", 3, 0, true, false),
    ("new a;", 3, 0, true, false),
    ("while (a) ;", 3, 0, true, false),
    ("(function () { ; })();", 4, 0, true, true),
    ("(function a() { ; })();", 4, 0, true, false),
    ("(function () { while (a) ; })();", 6, 0, true, false),
    ("(function () { ; })(a());", 6, 0, true, false),
    ("(function () { while (a) ; });", 5, 0, true, true),
];

#[test]
fn counts_nodes_and_tells(rt: HostRuntime) -> Result<(), Fail> {
    let alloc = rt.alloc();
    for (text, all, calls, closed, flat) in &COUNTS {
        let script = read(alloc, text)?;
        assert_eq!(rt; nodes(&script), *all, "nodes of {text}");
        assert_eq!(rt; host_forms(&script), *calls, "host calls of {text}");
        assert_eq!(rt; is_closed(&script), *closed, "of {text}");
        assert_eq!(rt; is_flat(&script), *flat, "of {text}");
    }
    Ok(())
}
