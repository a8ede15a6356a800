//! Number literals (7.8.3).

ghost use Rattle.std.specs.Prelude.{ℕ, true, min, IfOk, ◌+◌, ◌≡◌, ◌<◌, ◌≤◌, ◌^◌, drop, length, slice_index};
ghost use Rattle.std.specs.Char.{digit_value, is_ascii_digit, is_ascii_hexdigit};
ghost use Rattle.std.specs.List.{prefix_len};
ghost use Rattle.js_tree.specs.Lexing as spec;

use crate::characters::{char_at, rest};
use js_tree::{Feature, InputElement, ReadRefused, TokenForm, is_name_part};
use js_value::Place;

/// One more than the greatest number, 2^53 - 1.
const TOO_GREAT: u64 = 9_007_199_254_740_992;

fn digits_len(z: &[char]) -> usize
    ensures value { result ≡ prefix_len is_ascii_digit z.now }
    ensures some { 0 < length z.now → is_ascii_digit (slice_index z.now 0) ≡ true → 0 < result }
    ensures within { result ≤ length z.now }
{
    z.iter().take_while(|c| c.is_ascii_digit()).count()
}

/// How many hexadecimal digits the characters begin with.
pub fn hex_digits_len(z: &[char]) -> usize
    ensures value { result ≡ prefix_len is_ascii_hexdigit z.now }
    ensures within { result ≤ length z.now }
{
    z.iter().take_while(|c| c.is_ascii_hexdigit()).count()
}

fn value_of_digit(c: char) -> u64
    ensures value { result ≡ digit_value c }
    ensures small { result ≤ 36 }
{
    c.to_digit(36).map_or(36, u64::from)
}

/// The number that digits spell, cut above the greatest number.
pub fn value(radix: u64, digits: &[char]) -> u64
    requires some { 1 ≤ radix }
    requires few { radix ≤ 16 }
    ensures { result ≡ min (spec.value radix digits.now) TOO_GREAT }
{
    let mut n = 0;
    for c in digits {
        n = (radix * n + value_of_digit(*c)).min(TOO_GREAT);
    }
    n
}

fn whole(at: u32, n: usize, value: u64, z: &[char]) -> Result<(InputElement, usize), ReadRefused>
    requires { at + n < 2 ^ 32 }
    ensures token { (number : ℕ) → value ≡ min number TOO_GREAT → result ≡ spec.whole at n number z.now }
    ensures len { IfOk result (λ t. t.1 ≡ n) }
{
    if TOO_GREAT <= value {
        return Err(ReadRefused::Unsupported(Place(at), Feature::NumberLiteral));
    }
    if is_name_part(char_at(z, n)) {
        return Err(ReadRefused::Syntax(Place(at + n as u32)));
    }
    Ok((InputElement::Token(TokenForm::Number(value as i64)), n))
}

fn begins_exponent(z: &[char]) -> bool
    ensures { result ≡ spec.begins_exponent z.now }
{
    let c = char_at(z, 1);
    matches!(char_at(z, 0), 'e' | 'E')
        && (c.is_ascii_digit() || matches!(c, '+' | '-') && char_at(z, 2).is_ascii_digit())
}

fn decimal(at: u32, n: usize, z: &[char]) -> Result<(InputElement, usize), ReadRefused>
    requires fits { at + n < 2 ^ 32 }
    requires within { n ≤ length z.now }
    ensures token { result ≡ spec.decimal at n z.now }
    ensures len { IfOk result (λ t. t.1 ≡ n) }
{
    if char_at(z, n) == '.' || begins_exponent(rest(z, n)) {
        return Err(ReadRefused::Unsupported(Place(at), Feature::NumberLiteral));
    }
    whole(at, n, value(10, &z[..n]), z)
}

fn hexadecimal(at: u32, z: &[char]) -> Result<(InputElement, usize), ReadRefused>
    requires long { 2 ≤ length z.now }
    requires fits { at + length z.now < 2 ^ 32 }
    ensures token { result ≡ spec.hexadecimal at (prefix_len is_ascii_hexdigit (drop 2 z.now)) z.now }
    ensures within { IfOk result (λ t. (1 ≤ t.1) × (t.1 ≤ length z.now)) }
{
    let digits = rest(z, 2);
    let n = hex_digits_len(digits);
    whole(at, n + 2, value(16, &digits[..n]), z)
}

fn begins_hexadecimal(z: &[char]) -> bool
    ensures value { result ≡ spec.begins_hexadecimal z.now }
    ensures long { result ≡ true → 3 ≤ length z.now }
{
    char_at(z, 0) == '0' && matches!(char_at(z, 1), 'x' | 'X') && char_at(z, 2).is_ascii_hexdigit()
}

/// The number at the front of a text that begins with a digit.
#[tactic(auto, unfolding(js_tree::specs::Lexing::number))]
pub fn number(at: u32, z: &[char]) -> Result<(InputElement, usize), ReadRefused>
    requires fits { at + length z.now < 2 ^ 32 }
    requires first { is_ascii_digit (slice_index z.now 0) ≡ true }
    ensures token { result ≡ spec.number at z.now }
    ensures within { IfOk result (λ t. (1 ≤ t.1) × (t.1 ≤ length z.now)) }
{
    if begins_hexadecimal(z) {
        return hexadecimal(at, z);
    }
    if char_at(z, 0) == '0' && char_at(z, 1).is_ascii_digit() {
        return Err(ReadRefused::Unsupported(Place(at), Feature::OctalLiteral));
    }
    decimal(at, digits_len(z), z)
}
