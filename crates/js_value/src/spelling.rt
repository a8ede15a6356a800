//! Numbers that texts spell (9.3.1).

ghost use Rattle.std.specs.Prelude.{◌≡◌, ◌≤◌, pos, min, length, IfOk, IfErr, true, false};
ghost use Rattle.std.specs.List.{prefix_len, suffix_len, list_all};
ghost use Rattle.std.specs.Char.{is_ascii_digit};
ghost use Rattle.js_value.specs.Conversions as spec;
ghost use Rattle.js_value.specs.declared.why.Why.TheVariants as why;

use crate::number::within;
use crate::{Why, negate};

/// One above the greatest number of the profile.
const BEYOND: u64 = 9_007_199_254_740_992;

/// White space (7.2) or a line end (7.3).
fn is_blank(u: u16) -> bool
    ensures { result ≡ spec.is_blank u }
{
    (0x9..=0xD).contains(&u)
        || u == 0x20
        || u == 0xA0
        || u == 0x1680
        || (0x2000..=0x200A).contains(&u)
        || u == 0x2028
        || u == 0x2029
        || u == 0x202F
        || u == 0x205F
        || u == 0x3000
        || u == 0xFEFF
}

fn blanks_before(t: &[u16]) -> usize
    ensures count { result ≡ prefix_len spec.is_blank t.now }
    ensures within { result ≤ length t.now }
{
    t.iter().take_while(|u| is_blank(**u)).count()
}

fn blanks_behind(t: &[u16]) -> usize
    ensures count { result ≡ suffix_len spec.is_blank t.now }
    ensures within { result ≤ length t.now }
{
    t.iter().rev().take_while(|u| is_blank(**u)).count()
}

fn without_blanks_before(t: &[u16]) -> &[u16]
    ensures { result.now ≡ spec.without_blanks_before t.now }
{
    &t[blanks_before(t)..]
}

/// A text without the white space and the line ends at its two ends.
fn trimmed(t: &[u16]) -> &[u16]
    ensures { result.now ≡ spec.trimmed t.now }
{
    let rest = without_blanks_before(t);
    &rest[..rest.len() - blanks_behind(rest)]
}

fn is_digit(u: u16) -> bool
    ensures { result ≡ is_ascii_digit u }
{
    0x30 <= u && u <= 0x39
}

fn all_digits(t: &[u16]) -> bool
    ensures { result ≡ list_all is_ascii_digit t.now }
{
    t.iter().all(|u| is_digit(*u))
}

fn are_digits(t: &[u16]) -> bool
    ensures { result ≡ spec.are_digits t.now }
{
    0 < t.len() && all_digits(t)
}

/// The number that decimal digits spell, or one above the greatest of the profile where it is greater.
fn capped(digits: &[u16]) -> u64
    requires { list_all is_ascii_digit digits.now ≡ true }
    ensures { result ≡ min (spec.digits_value digits.now) BEYOND }
{
    let mut value = 0;
    for u in digits {
        value = (value * 10 + u64::from(*u - 0x30)).min(BEYOND);
    }
    value
}

/// The number that a text of decimal digits alone spells, with the same bound.
fn magnitude(t: &[u16]) -> Result<i64, Why>
    ensures digits { IfOk result (λ n. (spec.are_digits t.now ≡ true) × (n ≡ pos (min (spec.digits_value t.now) BEYOND))) }
    ensures spelling { IfErr result (λ e. (spec.are_digits t.now ≡ false) × (e ≡ why.NumberSpelling)) }
{
    if are_digits(t) {
        Ok(capped(t) as i64)
    } else {
        Err(Why::NumberSpelling)
    }
}

fn signed_number(t: &[u16]) -> Result<i64, Why>
    ensures { result ≡ spec.signed_number t.now }
{
    match t {
        [0x2D, digits @ ..] => negate(magnitude(digits)?),
        [0x2B, digits @ ..] => within(Some(magnitude(digits)?)),
        digits => within(Some(magnitude(digits)?)),
    }
}

/// ToNumber of a text (9.3.1).
#[tactic(auto, unfolding(crate::specs::Conversions::number_of_text))]
pub fn number_of_text(t: &[u16]) -> Result<i64, Why>
    ensures { result ≡ spec.number_of_text t.now }
{
    let spelled = trimmed(t);
    if spelled.is_empty() {
        Ok(0)
    } else {
        signed_number(spelled)
    }
}
