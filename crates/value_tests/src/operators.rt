//! Each operator once or more, worked out by hand from the clauses of ECMA-262 that define it.

use crate::spelled::{shown, value};
use js_value::{
    BinaryOp, GREATEST_LENGTH, Primitive, Refused, Text, UnaryOp, Why, binary, same_value,
    strict_equal, to_number, to_text, truth, unary,
};
use std::test::Fail;

static BINARY: [(&str, BinaryOp, &str, &str); 42] = [
    ("1", BinaryOp::Add, "2", "3"),
    ("1", BinaryOp::Add, "'2", "\"12\""),
    ("'a", BinaryOp::Add, "undefined", "\"aundefined\""),
    ("'a", BinaryOp::Add, "'b", "\"ab\""),
    ("null", BinaryOp::Add, "true", "1"),
    ("undefined", BinaryOp::Add, "1", "leaves NotANumber"),
    ("9007199254740991", BinaryOp::Add, "1", "leaves Unsafe"),
    ("5", BinaryOp::Sub, "' 7 ", "-2"),
    ("6", BinaryOp::Mul, "-7", "-42"),
    ("0", BinaryOp::Mul, "-7", "leaves MinusZero"),
    (
        "9007199254740991",
        BinaryOp::Mul,
        "9007199254740991",
        "leaves Unsafe",
    ),
    ("42", BinaryOp::Div, "-7", "-6"),
    ("1", BinaryOp::Div, "2", "leaves Fraction"),
    ("1", BinaryOp::Div, "0", "leaves Infinite"),
    ("0", BinaryOp::Div, "0", "leaves NotANumber"),
    ("0", BinaryOp::Div, "-5", "leaves MinusZero"),
    ("-7", BinaryOp::Rem, "3", "-1"),
    ("7", BinaryOp::Rem, "-3", "1"),
    ("-6", BinaryOp::Rem, "3", "leaves MinusZero"),
    ("1", BinaryOp::Shl, "31", "-2147483648"),
    ("1", BinaryOp::Shl, "33", "2"),
    ("-5", BinaryOp::Sar, "1", "-3"),
    ("-1", BinaryOp::Shr, "0", "4294967295"),
    ("4294967299", BinaryOp::BitAnd, "6", "2"),
    ("-1", BinaryOp::BitOr, "0", "-1"),
    ("2147483648", BinaryOp::BitXor, "1", "-2147483647"),
    ("'10", BinaryOp::Less, "'9", "true"),
    ("'10", BinaryOp::Less, "9", "false"),
    ("2", BinaryOp::Greater, "1", "true"),
    ("null", BinaryOp::LessEqual, "0", "true"),
    (
        "undefined",
        BinaryOp::GreaterEqual,
        "0",
        "leaves NotANumber",
    ),
    ("'a", BinaryOp::GreaterEqual, "'a", "true"),
    ("null", BinaryOp::Equal, "undefined", "true"),
    ("null", BinaryOp::Equal, "0", "false"),
    ("true", BinaryOp::Equal, "'1", "true"),
    ("1", BinaryOp::Equal, "'one", "leaves NumberSpelling"),
    ("1", BinaryOp::NotEqual, "'2", "true"),
    ("1", BinaryOp::Same, "'1", "false"),
    ("'a", BinaryOp::Same, "'a", "true"),
    ("1", BinaryOp::NotSame, "'1", "true"),
    ("'9007199254740992", BinaryOp::Sub, "0", "leaves Unsafe"),
    ("'-0", BinaryOp::Sub, "0", "leaves MinusZero"),
];

#[test]
fn operates_on_two(rt: HostRuntime) -> Result<(), Fail> {
    let alloc = rt.alloc();
    for (a, op, b, wanted) in &BINARY {
        let answer = match op {
            BinaryOp::In | BinaryOp::InstanceOf => return Err(Fail::new("no row")),
            _ => binary(alloc, *op, &value(alloc, a)?, &value(alloc, b)?),
        };
        assert_eq!(rt; shown(alloc, &answer)?.as_str(), *wanted, "{a} {op:?} {b}");
    }
    Ok(())
}

static UNARY: [(UnaryOp, &str, &str); 14] = [
    (UnaryOp::Plus, "'\u{feff} 42\n", "42"),
    (UnaryOp::Plus, "'+7", "7"),
    (UnaryOp::Plus, "'", "0"),
    (UnaryOp::Plus, "'0x10", "leaves NumberSpelling"),
    (UnaryOp::Plus, "'99999999999999999999999", "leaves Unsafe"),
    (UnaryOp::Minus, "5", "-5"),
    (UnaryOp::Minus, "null", "leaves MinusZero"),
    (UnaryOp::Not, "'0", "false"),
    (UnaryOp::Not, "undefined", "true"),
    (UnaryOp::BitNot, "5", "-6"),
    (UnaryOp::BitNot, "4294967295", "0"),
    (UnaryOp::TypeOf, "null", "\"object\""),
    (UnaryOp::TypeOf, "'a", "\"string\""),
    (UnaryOp::Void, "1", "undefined"),
];

#[test]
fn operates_on_one(rt: HostRuntime) -> Result<(), Fail> {
    let alloc = rt.alloc();
    for (op, a, wanted) in &UNARY {
        let answer = match op {
            UnaryOp::Delete => return Err(Fail::new("no row")),
            _ => unary(alloc, *op, &value(alloc, a)?),
        };
        assert_eq!(rt; shown(alloc, &answer)?.as_str(), *wanted, "{op:?} {a}");
    }
    Ok(())
}

/// A value, its truth, and its text.
static CONVERTED: [(&str, bool, &str); 7] = [
    ("undefined", false, "\"undefined\""),
    ("null", false, "\"null\""),
    ("true", true, "\"true\""),
    ("false", false, "\"false\""),
    ("0", false, "\"0\""),
    ("-9007199254740991", true, "\"-9007199254740991\""),
    ("'false", true, "\"false\""),
];

#[test]
fn converts(rt: HostRuntime) -> Result<(), Fail> {
    let alloc = rt.alloc();
    for (spelled, wanted, text) in &CONVERTED {
        let a = value(alloc, spelled)?;
        assert_eq!(rt; truth(&a), *wanted, "of {spelled}");
        let got = Ok(Primitive::Text(to_text(alloc, &a)?));
        assert_eq!(rt; shown(alloc, &got)?.as_str(), *text, "of {spelled}");
        assert!(rt; same_value(&a, &a), "of {spelled}");
        assert!(rt; strict_equal(&a, &a), "of {spelled}");
    }
    assert_eq!(rt; to_number(&value(alloc, "'12")?), Ok(12));
    assert_eq!(rt; to_number(&value(alloc, "'1 2")?), Err(Why::NumberSpelling));
    Ok(())
}

/// A text that is joined to itself 24 times is as long as a text may be, and no text is longer.
#[test]
fn joins_up_to_the_greatest_length(rt: HostRuntime) -> Result<(), Fail> {
    let alloc = rt.alloc();
    let mut text = Primitive::Text(Text::from_str(alloc, "a")?);
    for _ in 0..24 {
        text = binary(alloc, BinaryOp::Add, &text, &text)
            .ok()
            .ok_or("refused")?;
    }
    match &text {
        Primitive::Text(t) => assert_eq!(rt; t.len(), GREATEST_LENGTH),
        _ => return Err(Fail::new("no text")),
    }
    let one = Primitive::Text(Text::from_str(alloc, "a")?);
    let none = Primitive::Text(Text::from_str(alloc, "")?);
    let longer = binary(alloc, BinaryOp::Add, &text, &one);
    assert!(rt; matches!(&longer, Err(Refused::Left(Why::TextLength))));
    let same = binary(alloc, BinaryOp::Add, &none, &text)
        .ok()
        .ok_or("refused")?;
    assert!(rt; same_value(&same, &text));
    Ok(())
}
