//! Names of simple scripts.

ghost use Rattle.std.specs.Prelude.{◌≡◌, ◌<◌, slice_index};
ghost use Rattle.std.specs.List.{list_all, list_any};
ghost use Rattle.std.specs.Str.{bytes_eq};
ghost use Rattle.simple_scripts.specs.SimpleNames as spec;

use crate::taken::TAKEN_WORDS;
use js_value::is_spelled;

fn is_among(words: &[&[u8]], units: &[u16]) -> bool
    ensures { result ≡ list_any (λ known. bytes_eq known.now units.now) words.now }
{
    words.iter().any(|known| is_spelled(units, known))
}

/// Whether a name of a simple script may begin with a unit.
fn is_name_start(unit: u16) -> bool
    ensures { result ≡ spec.is_name_start unit }
{
    let Ok(c) = u8::try_from(unit) else {
        return false;
    };
    c.is_ascii_alphabetic() || c == b'$' || c == b'_'
}

/// Whether a name of a simple script may go on with a unit.
fn is_name_part(unit: u16) -> bool
    ensures { result ≡ spec.is_name_part unit }
{
    is_name_start(unit) || (u16::from(b'0') <= unit && unit <= u16::from(b'9'))
}

fn are_name_parts(units: &[u16]) -> bool
    ensures { result ≡ list_all spec.is_name_part units.now }
{
    units.iter().all(|unit| is_name_part(*unit))
}

fn first(units: &[u16]) -> u16
    ensures { result ≡ slice_index units.now 0 }
{
    match units {
        [] => 0,
        [unit, ..] => *unit,
    }
}

/// Whether a name is made of ASCII letters, digits, `$` and `_`, doesn't begin with a digit, and is no taken word.
#[tactic(auto, unfolding(crate::specs::SimpleNames::is_simple_name))]
pub fn is_simple_name(units: &[u16]) -> bool
    ensures { result ≡ spec.is_simple_name units.now }
{
    is_name_start(first(units)) && are_name_parts(units) && !is_among(&TAKEN_WORDS, units)
}
