//! Array indices and lengths (15.4).

ghost use Rattle.std.specs.Prelude.{◌≡◌, ◌<◌, min, true, IfSome};
ghost use Rattle.std.specs.Char.{is_ascii_digit};
ghost use Rattle.std.specs.List.{list_all};
ghost use Rattle.js_value.specs.Conversions as conversions;
ghost use Rattle.plain_heap.specs.Methods as methods;
ghost use Rattle.heap_values.specs.Meaning.{value_of};

use heap_values::Value;
use itoa::Buffer;
use js_value::{Primitive, Text};

/// The greatest length of an array, 2^32 - 1.
pub const GREATEST_LENGTH: u64 = 4_294_967_295;

/// One above the greatest number of the profile.
const BEYOND: u64 = 9_007_199_254_740_992;

fn is_digit(u: u16) -> bool
    ensures { result ≡ is_ascii_digit u }
{
    0x30 <= u && u <= 0x39
}

fn all_digits(t: &[u16]) -> bool
    ensures { result ≡ list_all is_ascii_digit t.now }
{
    t.iter().all(|u| is_digit(*u))
}

fn are_digits(t: &[u16]) -> bool
    ensures { result ≡ conversions.are_digits t.now }
{
    0 < t.len() && all_digits(t)
}

/// The number that decimal digits spell, or one above the greatest of the profile where it is greater.
fn capped(digits: &[u16]) -> u64
    requires { list_all is_ascii_digit digits.now ≡ true }
    ensures { result ≡ min (conversions.digits_value digits.now) BEYOND }
{
    let mut value = 0;
    for u in digits {
        value = (value * 10 + u64::from(*u - 0x30)).min(BEYOND);
    }
    value
}

/// The array index that a key is: a number below 2^32 - 1, spelled as ToString writes it.
#[tactic(auto, unfolding(plain_heap::specs::Methods::array_index))]
pub fn array_index(key: &Text) -> Option<u64>
    ensures index { result ≡ methods.array_index key.now }
    ensures below { IfSome result (λ n. n < GREATEST_LENGTH) }
{
    let units = key.as_slice();
    if !are_digits(units) {
        return None;
    }
    let n = capped(units);
    if n < GREATEST_LENGTH && key.is_spelled(Buffer::new().format(n).as_bytes()) {
        Some(n)
    } else {
        None
    }
}

/// The length that a value is: a number from 0 to 2^32 - 1.
pub fn length_of(value: &Value) -> Option<u64>
    ensures { result ≡ methods.length_of (value_of value.now) }
{
    match value {
        Value::Prim(Primitive::Number(n)) if 0 <= *n && (*n as u64) <= GREATEST_LENGTH => {
            Some(*n as u64)
        }
        _ => None,
    }
}
