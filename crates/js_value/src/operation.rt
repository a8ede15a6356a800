//! Operators on values that are no objects (11).

ghost use Rattle.std.specs.Prelude.{◌≡◌, ◌≢◌, ◌≤◌, ◌+◌, ◌++◌, Some, IsSome, length, IfOk};
ghost use Rattle.std.specs.Option.{option_map};
ghost use Rattle.js_value.specs.Answers.{Answers};
ghost use Rattle.js_value.specs.Operators as spec;
ghost use Rattle.js_value.specs.declared.primitive.Primitive.{Primitive};

use crate::arithmetic::{complement, on_numbers};
use crate::conversion::text_of_ascii;
use crate::{
    BinaryOp, NoMemory, Primitive, Refused, Text, UnaryOp, Why, add, negate, same_value, to_number,
    to_text, truth,
};
use std::alloc::Global;
use std::cmp::Ordering;

/// The greatest count of units of a text.
pub const GREATEST_LENGTH: usize = 16_777_216;

/// An operator on the numbers of its operands, the left one's first.
#[tactic(auto, unfolding(crate::specs::Operators::number_row))]
fn numeric(op: BinaryOp, a: &Primitive, b: &Primitive) -> Result<Primitive, Why>
    requires { IsSome (spec.number_row op) }
    ensures { Some result ≡ option_map (λ row. spec.numeric row a.now b.now) (spec.number_row op) }
{
    let x = to_number(a)?;
    let y = to_number(b)?;
    match on_numbers(op, x, y) {
        Some(answer) => Ok(Primitive::Number(answer?)),
        None => unreachable!(),
    }
}

/// How two values stand to each other (11.8.5).
#[tactic(auto, unfolding(crate::specs::Operators::compared))]
fn compare(a: &Primitive, b: &Primitive) -> Result<Ordering, Why>
    ensures { result ≡ spec.compared a.now b.now }
{
    match (a, b) {
        (Primitive::Text(s), Primitive::Text(t)) => Ok(s.as_slice().cmp(&t.as_slice())),
        _ => {
            let x = to_number(a)?;
            let y = to_number(b)?;
            Ok(x.cmp(&y))
        }
    }
}

/// One text behind another (11.6.1, step 7). That there is room for it in the profile is asked before it is made.
fn join(alloc: Global, s: &[u16], t: &[u16]) -> Result<Primitive, Refused>
    ensures { Answers (spec.joined s.now t.now) result }
{
    if GREATEST_LENGTH < s.len() || GREATEST_LENGTH - s.len() < t.len() {
        return Err(Refused::Left(Why::TextLength));
    }
    Ok(Primitive::Text(joined(alloc, s, t)?))
}

/// Both texts in one buffer of their length.
fn joined(alloc: Global, s: &[u16], t: &[u16]) -> Result<Text, NoMemory>
    requires { length s.now + length t.now ≤ GREATEST_LENGTH }
    ensures { IfOk result (λ r. r ≡ s.now ++ t.now) }
{
    let mut units = Vec::with_capacity(alloc, s.len() + t.len())?;
    units.extend_from_slice(s)?;
    units.extend_from_slice(t)?;
    Ok(Text::from_vec(units))
}

/// The addition operator (11.6.1).
#[tactic(auto, unfolding(crate::specs::Operators::add, crate::specs::Conversions::to_text))]
fn plus(alloc: Global, a: &Primitive, b: &Primitive) -> Result<Primitive, Refused>
    ensures { Answers (spec.add a.now b.now) result }
{
    match (a, b) {
        (Primitive::Text(s), Primitive::Text(t)) => join(alloc, s.as_slice(), t.as_slice()),
        (Primitive::Text(s), _) => join(alloc, s.as_slice(), to_text(alloc, b)?.as_slice()),
        (_, Primitive::Text(t)) => join(alloc, to_text(alloc, a)?.as_slice(), t.as_slice()),
        _ => {
            let x = to_number(a)?;
            let y = to_number(b)?;
            Ok(Primitive::Number(add(x, y)?))
        }
    }
}

/// The number that stands for a truth value (11.9.3, steps 6 and 7).
fn number_of(b: bool) -> Primitive
    ensures { result ≡ spec.number_of b }
{
    Primitive::Number(if b { 1 } else { 0 })
}

/// The comparison of two values none of which is a truth value (11.9.3).
fn equal_plain(a: &Primitive, b: &Primitive) -> Result<bool, Why>
    ensures { result ≡ spec.equal_plain a.now b.now }
{
    match (a, b) {
        (Primitive::Undefined, Primitive::Null) | (Primitive::Null, Primitive::Undefined) => {
            Ok(true)
        }
        (Primitive::Number(x), Primitive::Text(_)) => Ok(*x == to_number(b)?),
        (Primitive::Text(_), Primitive::Number(y)) => Ok(*y == to_number(a)?),
        _ => Ok(same_value(a, b)),
    }
}

/// The abstract equality comparison (11.9.3).
#[tactic(auto, unfolding(crate::specs::Operators::loosely_equal))]
fn loosely_equal(a: &Primitive, b: &Primitive) -> Result<bool, Why>
    ensures { result ≡ spec.loosely_equal a.now b.now }
{
    match (a, b) {
        (Primitive::Boolean(_), Primitive::Boolean(_)) => Ok(same_value(a, b)),
        (Primitive::Boolean(p), _) => equal_plain(&number_of(*p), b),
        (_, Primitive::Boolean(q)) => equal_plain(a, &number_of(*q)),
        _ => equal_plain(a, b),
    }
}

/// An operator that answers a truth value (11.8, 11.9).
#[tactic(auto, unfolding(crate::specs::Operators::truth_row))]
fn tells(op: BinaryOp, a: &Primitive, b: &Primitive) -> Result<bool, Why>
    requires { IsSome (spec.truth_row op) }
    ensures { Some result ≡ option_map (λ row. row a.now b.now) (spec.truth_row op) }
{
    match op {
        BinaryOp::Less => Ok(compare(a, b)?.is_lt()),
        BinaryOp::Greater => Ok(compare(a, b)?.is_gt()),
        BinaryOp::LessEqual => Ok(compare(a, b)?.is_le()),
        BinaryOp::GreaterEqual => Ok(compare(a, b)?.is_ge()),
        BinaryOp::Equal => loosely_equal(a, b),
        BinaryOp::NotEqual => Ok(!loosely_equal(a, b)?),
        BinaryOp::Same => Ok(same_value(a, b)),
        BinaryOp::NotSame => Ok(!same_value(a, b)),
        _ => unreachable!(),
    }
}

/// The strict equality comparison (11.9.6): without NaN and minus zero it is SameValue.
pub fn strict_equal(a: &Primitive, b: &Primitive) -> bool
    ensures { result ≡ spec.strictly_equal a.now b.now }
{
    same_value(a, b)
}

/// An operator with two operands on values that are no objects: the entry of the operators' table. `Left` comes exactly where
/// the table leaves the profile; memory is taken for texts alone.
#[tactic(auto, unfolding(crate::specs::Operators::binary_row, crate::specs::Operators::number_row, crate::specs::Operators::truth_row))]
pub fn binary(
    alloc: Global,
    op: BinaryOp,
    a: &Primitive,
    b: &Primitive,
) -> Result<Primitive, Refused>
    requires looks_in_no_object { op ≢ BinaryOp.In }
    requires asks_no_prototype { op ≢ BinaryOp.InstanceOf }
    ensures { (row : Primitive → Primitive → spec.Entry) → spec.binary_row op ≡ Some row → Answers (row a.now b.now) result }
{
    match op {
        BinaryOp::Add => plus(alloc, a, b),
        BinaryOp::Sub
        | BinaryOp::Mul
        | BinaryOp::Div
        | BinaryOp::Rem
        | BinaryOp::Shl
        | BinaryOp::Sar
        | BinaryOp::Shr
        | BinaryOp::BitAnd
        | BinaryOp::BitOr
        | BinaryOp::BitXor => Ok(numeric(op, a, b)?),
        BinaryOp::Less
        | BinaryOp::Greater
        | BinaryOp::LessEqual
        | BinaryOp::GreaterEqual
        | BinaryOp::Equal
        | BinaryOp::NotEqual
        | BinaryOp::Same
        | BinaryOp::NotSame => Ok(Primitive::Boolean(tells(op, a, b)?)),
        BinaryOp::In | BinaryOp::InstanceOf => unreachable!(),
    }
}

/// The name of a value's type (11.4.3).
#[tactic(auto, unfolding(crate::specs::Operators::type_of))]
fn type_of(a: &Primitive) -> &'static [u8]
    ensures { result.now ≡ spec.type_of a.now }
{
    match a {
        Primitive::Undefined => b"undefined",
        Primitive::Null => b"object",
        Primitive::Boolean(_) => b"boolean",
        Primitive::Number(_) => b"number",
        Primitive::Text(_) => b"string",
    }
}

/// An operator with one operand on values that are no objects: the entry of the operators' table. `Left` comes exactly where
/// the table leaves the profile; memory is taken for the answer of `typeof` alone.
#[tactic(auto, unfolding(crate::specs::Operators::unary_row))]
pub fn unary(alloc: Global, op: UnaryOp, a: &Primitive) -> Result<Primitive, Refused>
    requires { op ≢ UnaryOp.Delete }
    ensures { (row : Primitive → spec.Entry) → spec.unary_row op ≡ Some row → Answers (row a.now) result }
{
    match op {
        UnaryOp::Plus => Ok(Primitive::Number(to_number(a)?)),
        UnaryOp::Minus => Ok(Primitive::Number(negate(to_number(a)?)?)),
        UnaryOp::Not => Ok(Primitive::Boolean(!truth(a))),
        UnaryOp::BitNot => Ok(Primitive::Number(complement(to_number(a)?)?)),
        UnaryOp::TypeOf => Ok(Primitive::Text(text_of_ascii(alloc, type_of(a))?)),
        UnaryOp::Void => Ok(Primitive::Undefined),
        UnaryOp::Delete => unreachable!(),
    }
}
