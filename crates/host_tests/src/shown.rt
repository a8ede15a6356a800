use host_box::{HostEvent, RecordHost, Reply};
use js_value::{Kind, NoMemory, Primitive, Prims, Text};
use std::alloc::Global;
use std::fmt::Write;
use std::test::Fail;

pub fn text(alloc: Global, word: &str) -> Result<Text, Fail> {
    match Text::from_str(alloc, word) {
        Ok(text) => Ok(text),
        Err(NoMemory) => Err(Fail::new("no memory for a text")),
    }
}

fn push_text(alloc: Global, out: &mut String, text: &Text) -> Result<(), Fail> {
    match text.quoted(alloc) {
        Ok(quoted) => out.push_str(str::from_utf8(quoted.as_slice()).ok().ok_or("not ASCII")?)?,
        Err(NoMemory) => return Err(Fail::new("no memory for a text")),
    }
    Ok(())
}

fn push_value(alloc: Global, out: &mut String, value: &Primitive) -> Result<(), Fail> {
    match value {
        Primitive::Undefined => out.push_str("undefined")?,
        Primitive::Null => out.push_str("null")?,
        Primitive::Boolean(b) => write!(out, "{b}")?,
        Primitive::Number(n) => write!(out, "{n}")?,
        Primitive::Text(text) => push_text(alloc, out, text)?,
    }
    Ok(())
}

/// What a call came to.
pub fn reply(alloc: Global, came: &Reply) -> Result<String, Fail> {
    let mut out = String::new(alloc);
    match came {
        Reply::Given(value) => {
            out.push_str("given ")?;
            push_value(alloc, &mut out, value)?;
        }
        Reply::Thrown(value) => {
            out.push_str("thrown ")?;
            push_value(alloc, &mut out, value)?;
        }
        Reply::Ended => out.push_str("ended")?,
        Reply::Failed => out.push_str("failed")?,
        Reply::NoMemory => out.push_str("no memory")?,
    }
    Ok(out)
}

fn push_args(alloc: Global, out: &mut String, args: &Prims) -> Result<(), Fail> {
    for arg in args.as_slice() {
        push_value(alloc, out, arg)?;
        out.push_str(";")?;
    }
    Ok(())
}

fn push_event(alloc: Global, out: &mut String, event: &HostEvent) -> Result<(), Fail> {
    out.push_str(match event.kind {
        Kind::Number => "number ",
        Kind::Boolean => "boolean ",
        Kind::Text => "text ",
    })?;
    push_text(alloc, out, &event.name)?;
    out.push_str(" ")?;
    push_args(alloc, out, &event.args)?;
    out.push_str(if event.threw { " throws " } else { " = " })?;
    push_value(alloc, out, &event.answer)?;
    out.push_str("\n")?;
    Ok(())
}

/// The calls that a recorder keeps, a line each, and how many calls found no answer.
pub fn record(alloc: Global, host: &RecordHost) -> Result<String, Fail> {
    let mut out = String::new(alloc);
    for event in host.calls().as_slice() {
        push_event(alloc, &mut out, event)?;
    }
    write!(out, "ended {}", host.ended())?;
    Ok(out)
}
