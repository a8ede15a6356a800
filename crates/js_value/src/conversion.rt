//! Conversions of values that are no objects (9).

ghost use Rattle.std.specs.Prelude.{◌≡◌, IfOk};
ghost use Rattle.js_value.specs.Conversions as spec;

use crate::spelling::number_of_text;
use crate::{NoMemory, Primitive, Text, Why};
use itoa::Buffer;
use std::alloc::Global;

/// ToBoolean (9.2).
#[tactic(auto, unfolding(crate::specs::Conversions::to_boolean))]
pub fn truth(a: &Primitive) -> bool
    ensures { result ≡ spec.to_boolean a.now }
{
    match a {
        Primitive::Undefined | Primitive::Null => false,
        Primitive::Boolean(b) => *b,
        Primitive::Number(n) => *n != 0,
        Primitive::Text(t) => t.len() > 0,
    }
}

/// ToNumber (9.3). Of a text it is that of an optional sign and decimal digits, white space around them left out; every
/// other spelling leaves the profile, and so does a number outside it.
#[tactic(auto, unfolding(crate::specs::Conversions::to_number))]
pub fn to_number(a: &Primitive) -> Result<i64, Why>
    ensures { result ≡ spec.to_number a.now }
{
    match a {
        Primitive::Undefined => Err(Why::NotANumber),
        Primitive::Null => Ok(0),
        Primitive::Boolean(b) => Ok(if *b { 1 } else { 0 }),
        Primitive::Number(n) => Ok(*n),
        Primitive::Text(t) => number_of_text(t.as_slice()),
    }
}

/// SameValue (9.12).
#[tactic(auto, unfolding(crate::specs::Conversions::is_same_value))]
pub fn same_value(a: &Primitive, b: &Primitive) -> bool
    ensures { result ≡ spec.is_same_value a.now b.now }
{
    match (a, b) {
        (Primitive::Undefined, Primitive::Undefined) | (Primitive::Null, Primitive::Null) => true,
        (Primitive::Boolean(a), Primitive::Boolean(b)) => *a == *b,
        (Primitive::Number(a), Primitive::Number(b)) => *a == *b,
        (Primitive::Text(a), Primitive::Text(b)) => *a == *b,
        _ => false,
    }
}

/// The text of ASCII.
pub fn text_of_ascii(alloc: Global, bytes: &[u8]) -> Result<Text, NoMemory>
    ensures { IfOk result (λ t. t ≡ bytes.now) }
{
    let mut units = Vec::with_capacity(alloc, bytes.len())?;
    for b in bytes {
        units.push(u16::from(*b))?;
    }
    Ok(Text::from_vec(units))
}

/// ToString (9.8).
#[tactic(auto, unfolding(crate::specs::Conversions::to_text))]
pub fn to_text(alloc: Global, a: &Primitive) -> Result<Text, NoMemory>
    ensures { IfOk result (λ t. t ≡ spec.to_text a.now) }
{
    match a {
        Primitive::Undefined => text_of_ascii(alloc, b"undefined"),
        Primitive::Null => text_of_ascii(alloc, b"null"),
        Primitive::Boolean(true) => text_of_ascii(alloc, b"true"),
        Primitive::Boolean(false) => text_of_ascii(alloc, b"false"),
        Primitive::Number(n) => text_of_ascii(alloc, Buffer::new().format(*n).as_bytes()),
        Primitive::Text(t) => t.copy(alloc),
    }
}
