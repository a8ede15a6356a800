//! Names, keys and literals as a text gives them (7.6, 7.8).

ghost use Rattle.std.specs.Prelude.{◌≡◌, ◌≤◌, not, ◌∷◌, true, map, length, is_none, Some};
ghost use Rattle.std.specs.Char.Utf16.{is_high_surrogate, is_low_surrogate, lone_unit_char, surrogate_pair_char, utf16_chars};
ghost use Rattle.std.specs.List.{list_all};
ghost use Rattle.js_tree.specs.Lexing as lexing;
ghost use Rattle.js_grammar.specs.Marks as marks;
ghost use Rattle.js_grammar.specs.ReadableWords as spec;

use js_tree::{KEYWORDS, Keyword, is_name_part, is_name_start};
use js_value::{GREATEST_NUMBER, Primitive, Text, is_spelled};

fn lookup(mut table: &[(&[u8], Keyword)], word: &[u16]) -> Option<Keyword>
    ensures { result ≡ lexing.lookup (map (λ row. (row.0.now, row.1)) table.entry.now) word.now }
{
    while let [row, rest @ ..] = table {
        if is_spelled(word, row.0) {
            return Some(row.1);
        }
        table = rest;
    }
    None
}

#[tactic(auto, unfolding(js_tree::specs::Lexing::reserved_word))]
fn reserved_word(word: &[u16]) -> Option<Keyword>
    ensures { result ≡ lexing.reserved_word word.now }
{
    lookup(&KEYWORDS, word)
}

/// Whether a name isn't supported, except as a property's.
fn is_barred(name: &[u16]) -> bool
    ensures { is_none (marks.barred name.now) ≡ not result }
{
    is_spelled(name, b"eval") || is_spelled(name, b"arguments")
}

/// Whether a name begins an input or a host call.
fn is_form_name(name: &[u16]) -> bool
    ensures { is_none (marks.form_name name.now) ≡ not result }
{
    is_spelled(name, b"__abstract") || is_spelled(name, b"__residual")
}

fn is_high(u: u16) -> bool
    ensures { result ≡ is_high_surrogate u }
{
    0xD800 <= u && u < 0xDC00
}

fn is_low(u: u16) -> bool
    ensures { result ≡ is_low_surrogate u }
{
    0xDC00 <= u && u < 0xE000
}

/// The character of a unit that is in no pair.
fn lone(u: u16) -> Option<char>
    ensures { result ≡ lone_unit_char u }
{
    char::from_u32(u32::from(u))
}

/// The character of a pair.
fn of_pair(high: u16, low: u16) -> Option<char>
    requires high { is_high_surrogate high ≡ true }
    requires low { is_low_surrogate low ≡ true }
    ensures { result ≡ Some (surrogate_pair_char high low) }
{
    char::from_u32(0x1_0000 + (u32::from(high) - 0xD800) * 0x400 + (u32::from(low) - 0xDC00))
}

/// The first character that units spell, and what stands behind it.
#[tactic(auto, using(crate::proofs::Units::units))]
fn first_char(first: u16, behind: &[u16]) -> (Option<char>, &[u16])
    ensures chars { utf16_chars (first ∷ behind.now) ≡ result.0 ∷ utf16_chars result.1.now }
    ensures fewer { length result.1.now ≤ length behind.now }
{
    match behind {
        [] => (lone(first), behind),
        [second, rest @ ..] => {
            if is_high(first) && is_low(*second) {
                (of_pair(first, *second), rest)
            } else {
                (lone(first), behind)
            }
        }
    }
}

fn may_begin(c: Option<char>) -> bool
    ensures { result ≡ spec.passes lexing.is_name_start c }
{
    match c {
        None => false,
        Some(c) => is_name_start(c),
    }
}

fn may_go_on(c: Option<char>) -> bool
    ensures { result ≡ spec.passes lexing.is_name_part c }
{
    match c {
        None => false,
        Some(c) => is_name_part(c),
    }
}

#[tactic(auto, using(crate::proofs::Units::units))]
fn begins_name(units: &[u16]) -> bool
    ensures { result ≡ spec.begins_name (utf16_chars units.now) }
{
    match units {
        [] => false,
        [first, behind @ ..] => may_begin(first_char(*first, behind).0),
    }
}

#[tactic(auto, using(crate::proofs::Units::units))]
fn are_name_parts(mut units: &[u16]) -> bool
    ensures { result ≡ list_all (spec.passes lexing.is_name_part) (utf16_chars units.entry.now) }
{
    while let [first, behind @ ..] = units {
        let (c, rest) = first_char(*first, behind);
        if !may_go_on(c) {
            return false;
        }
        units = rest;
    }
    true
}

/// Whether a text isn't `__proto__`.
#[tactic(auto, using(crate::proofs::Units::units))]
pub fn is_readable_text(text: &Text) -> bool
    ensures { result ≡ spec.is_readable_text text.now }
{
    text.fits();
    !text.is_spelled(b"__proto__")
}

/// Whether a text is a name or a reserved word (7.6).
pub fn is_identifier_name(text: &Text) -> bool
    ensures { result ≡ spec.is_identifier_name text.now }
{
    is_readable_text(text) && begins_name(text.as_slice()) && are_name_parts(text.as_slice())
}

/// Whether a text is a name (7.6.1).
pub fn is_identifier(text: &Text) -> bool
    ensures { result ≡ spec.is_identifier text.now }
{
    is_identifier_name(text)
        && reserved_word(text.as_slice()).is_none()
        && !is_barred(text.as_slice())
        && !is_form_name(text.as_slice())
}

/// Whether a value is that of a literal (7.8): a number has no sign.
pub fn is_readable_literal(value: &Primitive) -> bool
    ensures { result ≡ spec.is_readable_literal value.now }
{
    match value {
        Primitive::Undefined => false,
        Primitive::Null | Primitive::Boolean(_) => true,
        Primitive::Number(n) => 0 <= *n && *n <= GREATEST_NUMBER,
        Primitive::Text(units) => is_readable_text(units),
    }
}
