//! Scripts of texts.

use js_lex::lex;
use js_parse::parse;
use js_tree::{ReadRefused, Script};
use js_value::{Place, Text};
use std::alloc::Global;
use std::fmt::Write;
use std::test::Fail;

/// How many parts may be open at once, and how high a tree may be.
const LIMIT: u32 = 200;

/// The script of a text, before its early checks.
pub fn read(alloc: Global, text: &str) -> Result<Script, Fail> {
    if text.len() > 1000 {
        return Err(Fail::from("a long text"));
    }
    let tokens = lex(alloc, text.as_bytes()).ok().ok_or("no tokens")?;
    Ok(parse(alloc, &tokens, LIMIT).ok().ok_or("no script")?)
}

/// Why a text is refused, and nothing where it isn't.
pub fn refusal(alloc: Global, answer: Result<(), ReadRefused>) -> Result<String, Fail> {
    let mut out = String::new(alloc);
    match answer {
        Ok(()) => {}
        Err(ReadRefused::Syntax(Place(at))) => write!(out, "syntax at {at}")?,
        Err(ReadRefused::Unsupported(Place(at), feature)) => {
            write!(out, "unsupported at {at}: {feature:?}")?
        }
        Err(ReadRefused::Nested(Place(at))) => write!(out, "nested at {at}")?,
        Err(ReadRefused::NoMemory) => out.push_str("no memory")?,
    }
    Ok(out)
}

/// Names, each as a string literal, with a space between two.
pub fn listed(alloc: Global, names: &[Text]) -> Result<String, Fail> {
    let mut out = String::new(alloc);
    for name in names {
        if !out.is_empty() {
            out.push_str(" ")?;
        }
        let quoted = name.quoted(alloc)?;
        let spelled = str::from_utf8(quoted.as_slice()).ok().ok_or("not ASCII")?;
        out.push_str(spelled)?;
    }
    Ok(out)
}
