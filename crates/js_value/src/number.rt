ghost use Rattle.std.specs.Prelude.{◌≡◌, ◌++◌, OnOk};
ghost use Rattle.std.specs.Fmt.{signed_decimal};
ghost use Rattle.js_value.specs.Numbers as spec;

use crate::{NoMemory, Why};
use itoa::Buffer;

/// The greatest number of the profile, 2^53 - 1. The least is its negation.
pub const GREATEST_NUMBER: i64 = 9_007_199_254_740_991;

/// The number, where the profile has it.
pub fn within(sum: Option<i64>) -> Result<i64, Why>
    ensures { result ≡ spec.within_option sum }
{
    match sum {
        Some(n) if -GREATEST_NUMBER <= n && n <= GREATEST_NUMBER => Ok(n),
        _ => Err(Why::Unsafe),
    }
}

/// The sum of two numbers (11.6.3).
pub fn add(a: i64, b: i64) -> Result<i64, Why>
    ensures { result ≡ spec.added a b }
{
    within(a.checked_add(b))
}

/// The difference of two numbers (11.6.3).
pub fn subtract(a: i64, b: i64) -> Result<i64, Why>
    ensures { result ≡ spec.subtracted a b }
{
    within(a.checked_sub(b))
}

/// The negation of a number (11.4.7). That of 0 is minus zero, which the profile doesn't have.
pub fn negate(a: i64) -> Result<i64, Why>
    ensures { result ≡ spec.negated a }
{
    if a == 0 {
        return Err(Why::MinusZero);
    }
    within(a.checked_neg())
}

/// Puts the decimal text of a number behind what is there.
pub fn push_number(bytes: &mut Vec<u8>, n: i64) -> Result<(), NoMemory>
    ensures { OnOk result (bytes.new.items ≡ bytes.old.items ++ signed_decimal n) }
{
    let mut buffer = Buffer::new();
    bytes.extend_from_slice(buffer.format(n).as_bytes())?;
    Ok(())
}
