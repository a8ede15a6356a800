//! Small sheets, worked out by hand.

use js_value::{Bytes, Kind, NoMemory, Primitive, Seq, Text, UnaryOp};
use script_text::Gap;
use std::alloc::Global;
use std::test::Fail;
use token_sheets::{Sheet, key, literal, two_literals, unary_operator};

fn text(alloc: Global, s: &str) -> Result<Text, NoMemory> {
    Text::from_str(alloc, s)
}

fn put_head(alloc: Global, sheet: &mut Sheet) -> Result<(), NoMemory> {
    sheet.word(b"if")?;
    sheet.opening(b"(")?;
    sheet.reference(alloc, &text(alloc, "a")?)?;
    sheet.word(b"-")?;
    unary_operator(sheet, UnaryOp::Minus)?;
    sheet.prefix(b"-")?;
    sheet.number(alloc, 1)?;
    sheet.closing(b")")
}

fn put_body(alloc: Global, sheet: &mut Sheet) -> Result<(), NoMemory> {
    sheet.open()?;
    sheet.named(alloc, &text(alloc, "f")?, Gap::Loose)?;
    sheet.inner(b"(")?;
    two_literals(alloc, sheet, Kind::Text, &text(alloc, "u")?)?;
    sheet.closing(b")")?;
    sheet.closing(b";")?;
    sheet.end_line()?;
    sheet.close();
    Ok(())
}

fn lines(alloc: Global) -> Result<Bytes, NoMemory> {
    let mut sheet = Sheet::lines(alloc);
    put_head(alloc, &mut sheet)?;
    sheet.word(b"{")?;
    sheet.end_line()?;
    put_body(alloc, &mut sheet)?;
    sheet.word(b"}")?;
    sheet.end_line()?;
    Ok(sheet.into_bytes())
}

#[test]
fn puts_lines(rt: HostRuntime) -> Result<(), Fail> {
    assert_eq!(rt;
        lines(rt.alloc())?.as_slice(),
        "if (a - - -1) {\n  f(\"string\", \"u\");\n}\n".as_bytes()
    );
    Ok(())
}

fn words(alloc: Global) -> Result<Bytes, NoMemory> {
    let mut sheet = Sheet::lines(alloc);
    literal(alloc, &mut sheet, &Primitive::Null)?;
    literal(alloc, &mut sheet, &Primitive::Boolean(true))?;
    literal(alloc, &mut sheet, &Primitive::Number(7))?;
    literal(alloc, &mut sheet, &Primitive::Text(text(alloc, "s")?))?;
    key(alloc, &mut sheet, &text(alloc, "k")?, Gap::Loose)?;
    key(alloc, &mut sheet, &text(alloc, "1k")?, Gap::Loose)?;
    Ok(sheet.into_bytes())
}

#[test]
fn puts_literals_and_keys(rt: HostRuntime) -> Result<(), Fail> {
    assert_eq!(rt;
        words(rt.alloc())?.as_slice(),
        "null true 7 \"s\" k \"1k\"".as_bytes()
    );
    Ok(())
}

fn two_names(alloc: Global) -> Result<Seq<Text>, NoMemory> {
    let mut names = Seq::new(alloc);
    names.push(text(alloc, "a")?)?;
    names.push(text(alloc, "b")?)?;
    Ok(names)
}

fn put_reference(alloc: Global, sheet: &mut Sheet, name: &str) -> Result<(), NoMemory> {
    sheet.reference(alloc, &text(alloc, name)?)
}

fn put_bound(alloc: Global, sheet: &mut Sheet, name: &str) -> Result<(), NoMemory> {
    sheet.bind_name(alloc, &text(alloc, name)?)?;
    sheet.end_line()?;
    put_reference(alloc, sheet, name)
}

fn put_assignment(alloc: Global, sheet: &mut Sheet) -> Result<(), NoMemory> {
    put_bound(alloc, sheet, "a")?;
    sheet.word(b"=")?;
    put_reference(alloc, sheet, "b")
}

fn put_code(alloc: Global, sheet: &mut Sheet) -> Result<(), NoMemory> {
    sheet.opening(b"{")?;
    put_assignment(alloc, sheet)?;
    sheet.closing(b";")?;
    sheet.release();
    put_reference(alloc, sheet, "a")
}

fn code(alloc: Global) -> Result<Bytes, NoMemory> {
    let names = two_names(alloc)?;
    let mut sheet = Sheet::code(alloc, names.as_slice())?;
    put_code(alloc, &mut sheet)?;
    Ok(sheet.into_bytes())
}

#[test]
fn puts_code(rt: HostRuntime) -> Result<(), Fail> {
    assert_eq!(rt; code(rt.alloc())?.as_slice(), "{ a = %2 ; %1".as_bytes());
    Ok(())
}
