use js_value::{Box, GREATEST_NUMBER, Seq, Text, Why, add, negate, push_number, subtract};
use std::test::Fail;

#[test]
fn arithmetic(rt: HostRuntime) -> Result<(), Fail> {
    let most = GREATEST_NUMBER;
    assert_eq!(rt; most, 9_007_199_254_740_991);
    for (a, b, sum, difference) in [
        (1, 2, Ok(3), Ok(-1)),
        (most, 0, Ok(most), Ok(most)),
        (most, 1, Err(Why::Unsafe), Ok(most - 1)),
        (-most, 1, Ok(1 - most), Err(Why::Unsafe)),
        (i64::MAX, i64::MAX, Err(Why::Unsafe), Ok(0)),
        (i64::MIN, 1, Err(Why::Unsafe), Err(Why::Unsafe)),
    ] {
        assert_eq!(rt; add(a, b), sum, "{a} + {b}");
        assert_eq!(rt; subtract(a, b), difference, "{a} - {b}");
    }
    for (a, negation) in [
        (5, Ok(-5)),
        (0, Err(Why::MinusZero)),
        (-most, Ok(most)),
        (i64::MIN, Err(Why::Unsafe)),
    ] {
        assert_eq!(rt; negate(a), negation, "-{a}");
    }
    Ok(())
}

#[test]
fn texts(rt: HostRuntime) -> Result<(), Fail> {
    let alloc = rt.alloc();
    for (s, units, literal) in [
        ("", 0, "\"\""),
        ("a", 1, "\"a\""),
        ("\"\\", 2, "\"\\\"\\\\\""),
        ("\n\u{e9}\u{1f600}", 4, "\"\\u000a\\u00e9\\ud83d\\ude00\""),
    ] {
        let text = Text::from_str(alloc, s)?;
        assert_eq!(rt; text.len(), units, "at {s}");
        let copy = text.copy(alloc)?;
        assert!(rt; copy == text, "at {s}");
        assert_eq!(rt;
            copy.quoted(alloc)?.as_slice(),
            literal.as_bytes(),
            "at {s}"
        );
        let again = Text::from_units(
            alloc,
            &Seq::from_vec(Vec::from_slice(alloc, text.as_slice())?),
        )?;
        assert!(rt; again == text, "at {s}");
    }
    Ok(())
}

#[test]
fn lists_and_boxes(rt: HostRuntime) -> Result<(), Fail> {
    let alloc = rt.alloc();
    let mut list = Seq::new(alloc);
    list.push(5)?;
    list.push(7)?;
    assert_eq!(rt; list.len(), 2);
    assert_eq!(rt; *list.at(1), 7);
    let boxed = Box::new(alloc, 9)?;
    assert_eq!(rt; *boxed, 9);
    assert_eq!(rt; boxed.into_inner(), 9);
    let mut bytes = Vec::new(alloc);
    push_number(&mut bytes, -120)?;
    assert_eq!(rt; bytes.as_slice(), b"-120".as_slice());
    Ok(())
}
