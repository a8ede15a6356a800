//! Operators on two numbers (11.5, 11.6, 11.7, 11.10) and on one (11.4).

ghost use Rattle.std.specs.Prelude.{◌≡◌, ◌≢◌, ◌<◌, ◌≤◌, ◌^◌, ℤ, Result, pos, ◌*ℤ◌, int_div, unsigned_abs, bit_and, bit_or, bit_xor};
ghost use Rattle.js_value.specs.Conversions as conversion;
ghost use Rattle.std.specs.Option.{option_map};
ghost use Rattle.js_value.specs.Numbers.{within};
ghost use Rattle.js_value.specs.Operators as spec;
ghost use Rattle.js_value.specs.declared.why.Why.{Why};

use crate::number::within;
use crate::{BinaryOp, Why, subtract};

/// What is left of a number modulo 2^32 (9.6).
pub fn to_uint32(n: i64) -> u32
    ensures { pos result ≡ conversion.uint32 n }
{
    n.rem_euclid(1 << 32) as u32
}

/// The same as a number from -2^31 to 2^31 - 1 (9.5).
pub fn to_int32(n: i64) -> i64
    ensures value { result ≡ conversion.int32 n }
    ensures bound { unsigned_abs result ≤ 2 ^ 31 }
{
    signed(to_uint32(n))
}

/// 32 bits as a signed number (9.5).
fn signed(bits: u32) -> i64
    ensures value { result ≡ conversion.signed32 (pos bits) }
    ensures bound { unsigned_abs result ≤ 2 ^ 31 }
{
    let n = i64::from(bits);
    if n < 1 << 31 { n } else { n - (1 << 32) }
}

/// 11.5.1
fn multiply(x: i64, y: i64) -> Result<i64, Why>
    ensures { result ≡ spec.multiplied x y }
{
    let product = x.checked_mul(y);
    if product == Some(0) && (x < 0 || y < 0) {
        return Err(Why::MinusZero);
    }
    within(product)
}

/// What a division by another number than 0 gives, towards 0.
fn whole_quotient(x: i64, y: i64) -> Result<i64, Why>
    requires { y ≢ pos 0 }
    ensures { result ≡ within (int_div x y) }
{
    within(x.checked_div(y))
}

/// 11.5.2, by another number than 0
fn quotient(x: i64, y: i64) -> Result<i64, Why>
    requires { y ≢ pos 0 }
    ensures { result ≡ spec.quotient x y }
{
    if x.wrapping_rem(y) != 0 {
        return Err(Why::Fraction);
    }
    if x == 0 && y < 0 {
        return Err(Why::MinusZero);
    }
    whole_quotient(x, y)
}

/// 11.5.2
fn divide(x: i64, y: i64) -> Result<i64, Why>
    ensures { result ≡ spec.divided x y }
{
    if y != 0 {
        return quotient(x, y);
    }
    Err(if x == 0 {
        Why::NotANumber
    } else {
        Why::Infinite
    })
}

/// 11.5.3
fn remainder(x: i64, y: i64) -> Result<i64, Why>
    ensures { result ≡ spec.remainder x y }
{
    if y == 0 {
        return Err(Why::NotANumber);
    }
    let rest = x.wrapping_rem(y);
    if rest == 0 && x < 0 {
        return Err(Why::MinusZero);
    }
    within(Some(rest))
}

/// How far a shift by a number goes (11.7).
fn shift_count(y: i64) -> u32
    ensures count { result ≡ spec.shift_count y }
    ensures most { result < 32 }
{
    to_uint32(y) % 32
}

/// A power of two.
fn power(count: u32) -> i64
    requires { count < 32 }
    ensures value { result ≡ pos (2 ^ count) }
    ensures bound { unsigned_abs result ≤ 2 ^ 31 }
{
    1 << count
}

/// A number of 32 bits times a power of two.
fn times_power(n: i64, count: u32) -> i64
    requires bits { unsigned_abs n ≤ 2 ^ 31 }
    requires most { count < 32 }
    ensures { result ≡ n *ℤ pos (2 ^ count) }
{
    n * power(count)
}

/// 11.7.1
fn shift_left(x: i64, y: i64) -> Result<i64, Why>
    ensures { result ≡ spec.shifted_left x y }
{
    Ok(to_int32(times_power(to_int32(x), shift_count(y))))
}

/// 11.7.2
fn shift_right(x: i64, y: i64) -> Result<i64, Why>
    ensures { result ≡ spec.shifted_right x y }
{
    Ok(to_int32(x).div_euclid(power(shift_count(y))))
}

/// 11.7.3
fn shift_right_unsigned(x: i64, y: i64) -> Result<i64, Why>
    ensures { result ≡ spec.shifted_right_unsigned x y }
{
    Ok(i64::from(to_uint32(x)).div_euclid(power(shift_count(y))))
}

/// 11.10
fn bit_and(x: i64, y: i64) -> Result<i64, Why>
    ensures { result ≡ spec.bitwise bit_and x y }
{
    Ok(signed(to_uint32(x) & to_uint32(y)))
}

/// 11.10
fn bit_or(x: i64, y: i64) -> Result<i64, Why>
    ensures { result ≡ spec.bitwise bit_or x y }
{
    Ok(signed(to_uint32(x) | to_uint32(y)))
}

/// 11.10
fn bit_xor(x: i64, y: i64) -> Result<i64, Why>
    ensures { result ≡ spec.bitwise bit_xor x y }
{
    Ok(signed(to_uint32(x) ^ to_uint32(y)))
}

/// 11.4.8
pub fn complement(x: i64) -> Result<i64, Why>
    ensures { result ≡ spec.complement x }
{
    Ok(-to_int32(x) - 1)
}

/// An operator on two numbers, where it is one (11.5, 11.6.3, 11.7, 11.10).
#[tactic(auto, unfolding(crate::specs::Operators::number_row))]
pub fn on_numbers(op: BinaryOp, x: i64, y: i64) -> Option<Result<i64, Why>>
    ensures { result ≡ option_map (λ (row : ℤ → ℤ → Result ℤ Why). row x y) (spec.number_row op) }
{
    match op {
        BinaryOp::Sub => Some(subtract(x, y)),
        BinaryOp::Mul => Some(multiply(x, y)),
        BinaryOp::Div => Some(divide(x, y)),
        BinaryOp::Rem => Some(remainder(x, y)),
        BinaryOp::Shl => Some(shift_left(x, y)),
        BinaryOp::Sar => Some(shift_right(x, y)),
        BinaryOp::Shr => Some(shift_right_unsigned(x, y)),
        BinaryOp::BitAnd => Some(bit_and(x, y)),
        BinaryOp::BitOr => Some(bit_or(x, y)),
        BinaryOp::BitXor => Some(bit_xor(x, y)),
        _ => None,
    }
}
