//! Values that are spelled, and answers as they are shown.

use js_value::{Primitive, Refused, Text};
use std::alloc::Global;
use std::fmt::Write;
use std::test::Fail;

/// The value that is spelled so: `undefined`, `null`, `true`, `false`, a number, or a text behind a quote.
pub fn value(alloc: Global, spelled: &str) -> Result<Primitive, Fail> {
    Ok(match spelled {
        "undefined" => Primitive::Undefined,
        "null" => Primitive::Null,
        "true" => Primitive::Boolean(true),
        "false" => Primitive::Boolean(false),
        _ => match spelled.strip_prefix("'") {
            Some(text) => Primitive::Text(Text::from_str(alloc, text)?),
            None => Primitive::Number(spelled.parse().ok().ok_or("no value")?),
        },
    })
}

/// An answer: a value as it is spelled, a text as a string literal, or why there is none.
pub fn shown(alloc: Global, answer: &Result<Primitive, Refused>) -> Result<String, Fail> {
    let mut out = String::new(alloc);
    match answer {
        Ok(Primitive::Undefined) => out.push_str("undefined")?,
        Ok(Primitive::Null) => out.push_str("null")?,
        Ok(Primitive::Boolean(b)) => write!(out, "{b}")?,
        Ok(Primitive::Number(n)) => write!(out, "{n}")?,
        Ok(Primitive::Text(text)) => {
            let quoted = text.quoted(alloc)?;
            let literal = str::from_utf8(quoted.as_slice()).ok().ok_or("not ASCII")?;
            out.push_str(literal)?;
        }
        Err(Refused::Left(why)) => write!(out, "leaves {why:?}")?,
        Err(Refused::NoMemory) => out.push_str("no memory")?,
    }
    Ok(out)
}
