//! String literals (7.8.4).

ghost use Rattle.std.specs.Prelude.{[], ◌∷◌, IfOk, IfSome, ◌+◌, ◌≡◌, ◌<◌, ◌≤◌, ◌^◌, length, slice_index};
ghost use Rattle.js_tree.specs.Lexing as spec;
ghost use Rattle.js_tree.specs.Refusals.{Gives};

use crate::characters::{char_at, is_line_end, rest, width_between};
use crate::numbers::{hex_digits_len, value};
use crate::words::{push_units, refuse_proto};
use js_tree::{Feature, InputElement, ReadRefused, TokenForm};
use js_value::{NoMemory, Place, Text};
use std::alloc::Global;

fn line_end_len(c: char, z: &[char]) -> usize
    ensures { result ≡ spec.line_end_len c z.now }
{
    if c == '\r' && char_at(z, 0) == '\n' {
        2
    } else {
        1
    }
}

/// The text of one unit.
fn one(alloc: Global, unit: u16) -> Result<Text, NoMemory>
    ensures { IfOk result (λ t. t ≡ unit ∷ []) }
{
    Ok(Text::from_vec(vec![in alloc; unit]?))
}

fn single_escape(alloc: Global, c: char) -> Result<Text, NoMemory>
    ensures { IfOk result (λ t. t ≡ spec.single_escape c) }
{
    match c {
        'b' => one(alloc, 0x8),
        't' => one(alloc, 0x9),
        'n' => one(alloc, 0xA),
        'v' => one(alloc, 0xB),
        'f' => one(alloc, 0xC),
        'r' => one(alloc, 0xD),
        _ => {
            let mut units = Vec::new(alloc);
            push_units(&mut units, c)?;
            Ok(Text::from_vec(units))
        }
    }
}

fn hex_unit(n: usize, z: &[char]) -> Option<u16>
    requires { n ≤ 4 }
    ensures value { result ≡ spec.hex_unit n z.now }
    ensures within { IfSome result (λ _. n ≤ length z.now) }
{
    if z.len() < n {
        return None;
    }
    let digits = &z[..n];
    if hex_digits_len(digits) < n {
        return None;
    }
    Some(value(16, digits) as u16)
}

fn hex_escape(
    alloc: Global,
    at: u32,
    n: usize,
    unit: Option<u16>,
) -> Result<(Text, usize), ReadRefused>
    ensures units { Gives (spec.hex_escape at n unit) result }
    ensures len { IfOk result (λ e. e.1 ≡ n) }
{
    let Some(unit) = unit else {
        return Err(ReadRefused::Syntax(Place(at)));
    };
    Ok((one(alloc, unit)?, n))
}

/// The units of the escape whose backslash stands at a place, by what follows it, and how many characters it takes with the
/// backslash.
#[tactic(auto, unfolding(js_tree::specs::Lexing::escape))]
fn escape(alloc: Global, at: u32, z: &[char]) -> Result<(Text, usize), ReadRefused>
    ensures units { Gives (spec.escape at z.now) result }
    ensures within { IfOk result (λ e. (1 ≤ e.1) × (e.1 ≤ length z.now + 1)) }
{
    let [c, more @ ..] = z else {
        return Ok((Text::from_vec(Vec::new(alloc)), 1));
    };
    let c = *c;
    if is_line_end(c) {
        return Ok((Text::from_vec(Vec::new(alloc)), line_end_len(c, more) + 1));
    }
    if c == '0' && !char_at(more, 0).is_ascii_digit() {
        return Ok((one(alloc, 0)?, 2));
    }
    if c.is_ascii_digit() {
        return Err(ReadRefused::Unsupported(Place(at), Feature::OctalEscape));
    }
    if c == 'x' {
        return hex_escape(alloc, at, 4, hex_unit(2, more));
    }
    if c == 'u' {
        return hex_escape(alloc, at, 6, hex_unit(4, more));
    }
    Ok((single_escape(alloc, c)?, 2))
}

/// The string that a quote opened at a place, from behind the quote on.
#[tactic(auto, using(crate::proofs::Scanning::string_char))]
fn string_from(
    alloc: Global,
    opened: u32,
    quote: char,
    z: &[char],
) -> Result<(InputElement, usize), ReadRefused>
    requires { opened + 1 + spec.width z.now < 2 ^ 32 }
    ensures token { Gives (spec.string_from opened quote 0 [] 1 (opened + 1) z.now) result }
    ensures within { IfOk result (λ t. (1 ≤ t.1) × (t.1 ≤ length z.now + 1)) }
{
    let mut units = Vec::new(alloc);
    let mut i = 0;
    let mut at = opened + 1;
    while i < z.len() {
        let c = z[i];
        if c == quote {
            refuse_proto(opened, units.as_slice())?;
            let text = Text::from_vec(units);
            return Ok((InputElement::Token(TokenForm::Str(text)), i + 2));
        }
        if is_line_end(c) {
            return Err(ReadRefused::Syntax(Place(opened)));
        }
        if c == '\\' {
            let (more, len) = escape(alloc, at, rest(z, i + 1))?;
            units.extend_from_slice(more.as_slice())?;
            at += width_between(z, i, i + len);
            i += len;
        } else {
            push_units(&mut units, c)?;
            at += c.len_utf8() as u32;
            i += 1;
        }
    }
    Err(ReadRefused::Syntax(Place(opened)))
}

/// The string at the front of a text that begins with a quote.
pub fn string(alloc: Global, at: u32, z: &[char]) -> Result<(InputElement, usize), ReadRefused>
    requires some { 0 < length z.now }
    requires quote { slice_index z.now 0 < 128 }
    requires fits { at + spec.width z.now < 2 ^ 32 }
    ensures token { Gives (spec.string at z.now) result }
    ensures within { IfOk result (λ t. (1 ≤ t.1) × (t.1 ≤ length z.now)) }
{
    string_from(alloc, at, z[0], rest(z, 1))
}
