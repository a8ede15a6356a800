//! Texts of about 1 MiB that are printed as themselves.

use crate::rows::printed;
use std::alloc::Global;
use std::process::Abort;
use std::test::Fail;

/// What stands in front, what comes so many times, and what stands behind.
type Repeated = (&'static str, &'static str, usize, &'static str);

/// Long lists, and one long string.
static LONG: [Repeated; 6] = [
    ("", "a = b + 1;\n", 95_325, ""),
    ("", "function f() {\n  a;\n}\n", 47_662, ""),
    ("a = [", "1, ", 349_520, "1];\n"),
    ("a(", "b, ", 349_520, "b);\n"),
    ("a = {", "b: c, ", 174_760, "b: c};\n"),
    ("a = \"", "s", 1_048_568, "\";\n"),
];

/// What is printed is the text itself.
fn prints_itself(rt: &impl Abort, alloc: Global, text: &[u8]) -> Result<(), Fail> {
    let got = printed(alloc, text)?;
    assert!(rt; got.as_slice() == text);
    Ok(())
}

fn push_times(text: &mut String, part: &str, times: usize) -> Result<(), Fail> {
    for _ in 0..times {
        text.push_str(part)?;
    }
    Ok(())
}

#[test]
fn prints_long_texts(rt: HostRuntime) -> Result<(), Fail> {
    let alloc = rt.alloc();
    for (front, part, times, behind) in LONG {
        let mut text = String::from_str(alloc, front)?;
        push_times(&mut text, part, times)?;
        text.push_str(behind)?;
        prints_itself(&rt, alloc, text.as_bytes())?;
    }
    Ok(())
}

/// Statements as high as may be, of calls in arguments.
#[test]
fn prints_high_expressions(rt: HostRuntime) -> Result<(), Fail> {
    let alloc = rt.alloc();
    let mut text = String::new(alloc);
    for _ in 0..1_755 {
        push_times(&mut text, "a(", 198)?;
        text.push_str("a")?;
        push_times(&mut text, ")", 198)?;
        text.push_str(";\n")?;
    }
    prints_itself(&rt, alloc, text.as_bytes())
}

/// Blocks as deep as may be, each on lines of their own.
#[test]
fn prints_deep_blocks(rt: HostRuntime) -> Result<(), Fail> {
    let alloc = rt.alloc();
    let mut text = String::new(alloc);
    for _ in 0..13 {
        for depth in 0..198 {
            push_times(&mut text, "  ", depth)?;
            text.push_str("{\n")?;
        }
        push_times(&mut text, "  ", 198)?;
        text.push_str("a;\n")?;
        for depth in 0..198 {
            push_times(&mut text, "  ", 197 - depth)?;
            text.push_str("}\n")?;
        }
    }
    prints_itself(&rt, alloc, text.as_bytes())
}
