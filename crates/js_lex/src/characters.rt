//! The classes of characters, and what stands at the front of a list of them.

ghost use Rattle.std.specs.Prelude.{true, ◌≢◌, nat_eq, ◌≡◌, ◌<◌, ◌≤◌, ◌+◌, ◌^◌, drop, length, slice_index, take};
ghost use Rattle.std.specs.Cmp.Lexicographic.{pointwise};
ghost use Rattle.std.specs.List.{starts_with};
ghost use Rattle.js_tree.specs.Lexing as spec;

/// White space (7.2).
pub fn is_white_space(c: char) -> bool
    ensures { result ≡ spec.is_white_space c }
{
    matches!(
        c,
        '\t' | '\u{B}' | '\u{C}' | ' ' | '\u{A0}' | '\u{1680}' | '\u{2000}'..='\u{200A}'
            | '\u{202F}'
            | '\u{205F}'
            | '\u{3000}'
            | '\u{FEFF}'
    )
}

/// The end of a line (7.3).
pub fn is_line_end(c: char) -> bool
    ensures { result ≡ spec.is_line_end c }
{
    matches!(c, '\n' | '\r' | '\u{2028}' | '\u{2029}')
}

/// The character at a position, or NUL past the end.
pub fn char_at(z: &[char], at: usize) -> char
    ensures value { result ≡ slice_index z.now at }
    ensures within { result ≢ 0 → at < length z.now }
{
    if at < z.len() { z[at] } else { '\0' }
}

/// How many bytes the characters take in UTF-8.
fn width(z: &[char]) -> u32
    requires { spec.width z.now < 2 ^ 32 }
    ensures { result ≡ spec.width z.now }
{
    let mut bytes = 0;
    for c in z {
        bytes += c.len_utf8() as u32;
    }
    bytes
}

/// The characters from a position on.
pub fn rest(z: &[char], from: usize) -> &[char]
    requires { from ≤ length z.now }
    ensures { result.now ≡ drop from z.now }
{
    &z[from..]
}

/// How many bytes the characters between two positions take in UTF-8.
pub fn width_between(z: &[char], from: usize, to: usize) -> u32
    requires order { from ≤ to }
    requires within { to ≤ length z.now }
    requires fits { spec.width z.now < 2 ^ 32 }
    ensures { spec.width (take from z.now) + result ≡ spec.width (take to z.now) }
{
    width(&z[from..to])
}

/// The characters are those of an ASCII spelling.
pub fn is_spelled(z: &[char], spelling: &[u8]) -> bool
    ensures { result ≡ pointwise nat_eq spelling.now z.now }
{
    match (z, spelling) {
        ([], []) => true,
        ([c, z @ ..], [b, spelling @ ..]) => *c == char::from(*b) && is_spelled(z, spelling),
        _ => false,
    }
}

/// The characters begin with an ASCII spelling.
pub fn begins_with(z: &[char], spelling: &[u8]) -> bool
    ensures value { result ≡ starts_with nat_eq z.now spelling.now }
    ensures within { result ≡ true → length spelling.now ≤ length z.now }
{
    spelling.len() <= z.len() && is_spelled(&z[..spelling.len()], spelling)
}
