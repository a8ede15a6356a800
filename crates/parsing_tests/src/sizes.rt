//! Texts with a part that is repeated: how deep parts may nest, and that long texts need no more of the stack than short ones.

ghost use Rattle.std.specs.Prelude.{◌<◌, ◌≤◌, length};

use crate::texts::refusal;
use js_lex::lex;
use js_parse::parse;
use js_tree::{ReadRefused, Script};
use std::alloc::Global;
use std::process::Abort;
use std::test::Fail;

/// What stands in front, what comes so many times, what stands in the middle, what comes as often again, how many parts
/// may be open and how high the tree may be, and why it isn't read: nothing where it is.
type Repeated = (
    &'static [u8],
    &'static [u8],
    usize,
    &'static [u8],
    &'static [u8],
    u32,
    &'static str,
);

/// As deep as may be, and one deeper.
static DEEP: [Repeated; 37] = [
    (b"var x = ", b"!", 198, b"0;", b"", 200, ""),
    (b"var x = ", b"!", 199, b"0;", b"", 200, "nested at 0"),
    (b"", b"!", 1022, b"a", b"", 1024, ""),
    (b"", b"!", 1023, b"a", b"", 1024, "nested at 0"),
    (b"", b"!", 1024, b"a", b"", 1024, "nested at 1024"),
    (b"", b"(", 199, b"a", b")", 200, ""),
    (b"", b"(", 200, b"a", b")", 200, "nested at 200"),
    (b"", b"(", 1023, b"a", b")", 1024, ""),
    (b"", b"(", 1024, b"a", b")", 1024, "nested at 1024"),
    (b"", b"[", 1022, b"", b"]", 1024, ""),
    (b"", b"[", 1023, b"a", b"]", 1024, "nested at 0"),
    (b"", b"[", 1024, b"", b"]", 1024, "nested at 1024"),
    (b"", b"f(", 1022, b"", b")", 1024, ""),
    (b"", b"f(", 1023, b"", b")", 1024, "nested at 0"),
    (b"", b"a[", 1022, b"a", b"]", 1024, ""),
    (b"", b"a[", 1023, b"a", b"]", 1024, "nested at 0"),
    (b"", b"a=", 1022, b"a", b"", 1024, ""),
    (b"", b"a=", 1023, b"a", b"", 1024, "nested at 0"),
    (b"", b"a?a:", 1022, b"a", b"", 1024, ""),
    (b"", b"a?a:", 1023, b"a", b"", 1024, "nested at 0"),
    (b"", b"a?", 1022, b"a", b":a", 1024, ""),
    (b"", b"a?", 1023, b"a", b":a", 1024, "nested at 0"),
    (b"", b"new ", 1022, b"a", b"", 1024, ""),
    (b"", b"new ", 1023, b"a", b"", 1024, "nested at 0"),
    (b"x=", b"{a:", 1021, b"a", b"}", 1024, ""),
    (b"x=", b"{a:", 1022, b"a", b"}", 1024, "nested at 0"),
    (b"", b"{", 1024, b"", b"}", 1024, ""),
    (b"", b"{", 1025, b"", b"}", 1024, "nested at 1024"),
    (b"", b"if(a)", 1022, b"a", b"", 1024, ""),
    (b"", b"if(a)", 1023, b"a", b"", 1024, "nested at 0"),
    (b"", b"while(a)", 1022, b"a", b"", 1024, ""),
    (b"", b"for(;;)", 1022, b"a", b"", 1024, ""),
    (b"", b"do ", 1022, b"a", b"\nwhile(a)", 1024, ""),
    (b"", b"try{", 1023, b"", b"}finally{}", 1024, ""),
    (b"", b"switch(a){case a:", 1022, b"a", b"}", 1024, ""),
    (b"x=", b"function(){return ", 510, b"a", b"}", 1024, ""),
    (
        b"x=",
        b"function(){return ",
        511,
        b"a",
        b"}",
        1024,
        "nested at 0",
    ),
];

/// Long lists, and nesting that isn't counted as open, of up to 1,048,576 bytes.
static LONG: [Repeated; 21] = [
    (b"", b"a;", 524_288, b"", b"", 200, ""),
    (b"{", b"a;", 524_287, b"}", b"", 200, ""),
    (b"", b"a+", 524_287, b"a", b"", 200, "nested at 0"),
    (b"a", b",a", 524_287, b"", b"", 200, "nested at 0"),
    (b"a", b".b", 524_287, b"", b"", 200, "nested at 0"),
    (b"f(", b"a,", 524_286, b"a)", b"", 200, ""),
    (b"[", b",", 1_048_573, b"]", b"", 200, ""),
    (b"[", b"a,", 524_287, b"]", b"", 200, ""),
    (b"x={", b"a:a,", 262_142, b"}", b"", 200, ""),
    (b"var a", b",a", 524_285, b"", b"", 200, ""),
    (b"function f(a", b",a", 524_280, b"){}", b"", 200, ""),
    (b"switch(a){", b"case 1:", 149_794, b"}", b"", 200, ""),
    (
        b"__residual(\"number\",\"f\"",
        b",a",
        524_275,
        b")",
        b"",
        200,
        "",
    ),
    // 262,143 chained `new`: the 200th from within is too high
    (b"", b"new ", 262_143, b"a", b"", 200, "nested at 1047772"),
    (b"", b"new ", 262_144, b"", b"", 200, "syntax at 1048576"),
    // 262,143 nested literals: the 200th from within is too high
    (b"x=", b"{a:", 262_143, b"a", b"}", 200, "nested at 785831"),
    (b"x=", b"{a:", 349_524, b"", b"", 200, "syntax at 1048574"),
    (b"x=", b"{a:a+", 209_714, b"", b"", 200, "syntax at 1048572"),
    (
        b"x=",
        b"{a:new ",
        149_796,
        b"",
        b"",
        200,
        "syntax at 1048574",
    ),
    (b"", b"(", 1_048_576, b"", b"", 1024, "nested at 1024"),
    (b"", b"a=", 524_288, b"", b"", 1024, "nested at 2048"),
];

fn text(alloc: Global, of: &Repeated) -> Result<Vec<u8>, Fail> {
    let (front, opening, times, middle, closing, _, _) = of;
    let mut all = Vec::new(alloc);
    all.extend_from_slice(front)?;
    for _ in 0..*times {
        all.extend_from_slice(opening)?;
    }
    all.extend_from_slice(middle)?;
    for _ in 0..*times {
        all.extend_from_slice(closing)?;
    }
    Ok(all)
}

fn answer(alloc: Global, text: &[u8], limit: u32) -> Result<Script, ReadRefused>
    requires { length text.now ≤ 2097152 }
{
    parse(alloc, &lex(alloc, text)?, limit)
}

fn all_read(rt: &impl Abort, alloc: Global, cases: &[Repeated]) -> Result<(), Fail> {
    for case in cases {
        let text = text(alloc, case)?;
        assert!(rt; text.len() <= 2_097_152);
        let (front, opening, times, _, _, limit, wanted) = case;
        let got = refusal(alloc, answer(alloc, text.as_slice(), *limit))?;
        assert_eq!(rt;
            got.as_str(),
            *wanted,
            "of {front:?} and {times} times {opening:?}"
        );
    }
    Ok(())
}

#[test]
fn nests_up_to_the_limit(rt: HostRuntime) -> Result<(), Fail> {
    all_read(&rt, rt.alloc(), &DEEP)
}

#[test]
fn reads_long_texts(rt: HostRuntime) -> Result<(), Fail> {
    all_read(&rt, rt.alloc(), &LONG)
}

/// Statements as high as may be, of 1,047,138 bytes.
#[test]
fn reads_high_statements(rt: HostRuntime) -> Result<(), Fail> {
    let alloc = rt.alloc();
    let mut all = Vec::new(alloc);
    for _ in 0..2_631 {
        for _ in 0..198 {
            all.extend_from_slice(b"a+")?;
        }
        all.extend_from_slice(b"a;")?;
    }
    assert!(rt; all.len() <= 2_097_152);
    let got = refusal(alloc, answer(alloc, all.as_slice(), 200))?;
    assert_eq!(rt; got.as_str(), "");
    Ok(())
}
