//! Names, reserved words and punctuators.

ghost use Rattle.std.specs.Prelude.{true, map, IfOk, IfSome, OnOk, ◌++◌, ◌≡◌, ◌<◌, ◌≤◌, length, slice_index, Ok, Err, if◌then◌else◌};
ghost use Rattle.std.specs.Char.Escape.{encode_utf16};
ghost use Rattle.std.specs.List.{prefix_len};
ghost use Rattle.js_tree.specs.Lexing as spec;
ghost use Rattle.js_tree.specs.Refusals.{Gives, unsupported};

use crate::characters::{begins_with, is_spelled};
use js_tree::{
    Feature, InputElement, KEYWORDS, Keyword, PUNCTUATORS, Punctuator, ReadRefused, TokenForm,
    is_name_part,
};
use js_value::{NoMemory, Place, Text};
use std::alloc::Global;

/// The name whose value an object would take for its prototype.
const PROTO_NAME: [u16; 9] = [95, 95, 112, 114, 111, 116, 111, 95, 95];

fn name_len(z: &[char]) -> usize
    ensures value { result ≡ prefix_len spec.is_name_part z.now }
    ensures some { 0 < length z.now → spec.is_name_part (slice_index z.now 0) ≡ true → 0 < result }
    ensures within { result ≤ length z.now }
{
    z.iter().take_while(|c| is_name_part(**c)).count()
}

fn lookup(mut table: &[(&[u8], Keyword)], word: &[char]) -> Option<Keyword>
    ensures { result ≡ spec.lookup (map (λ row. (row.0.now, row.1)) table.entry.now) word.now }
{
    while let [row, rest @ ..] = table {
        if is_spelled(word, row.0) {
            return Some(row.1);
        }
        table = rest;
    }
    None
}

#[tactic(auto, unfolding(js_tree::specs::Lexing::reserved_word))]
fn reserved_word(word: &[char]) -> Option<Keyword>
    ensures { result ≡ spec.reserved_word word.now }
{
    lookup(&KEYWORDS, word)
}

/// Puts the units of a character behind what is there (8.4).
pub fn push_units(units: &mut Vec<u16>, c: char) -> Result<(), NoMemory>
    ensures { OnOk result (units.new.items ≡ units.old.items ++ encode_utf16 c) }
{
    let mut pair = [0u16; 2];
    units.extend_from_slice(c.encode_utf16(&mut pair))?;
    Ok(())
}

fn units_of(alloc: Global, z: &[char]) -> Result<Vec<u16>, NoMemory>
    ensures { IfOk result (λ units. units.items ≡ spec.units z.now) }
{
    let mut units = Vec::new(alloc);
    for c in z {
        push_units(&mut units, *c)?;
    }
    Ok(units)
}

fn is_proto(units: &[u16]) -> bool
    ensures { result ≡ spec.is_proto units.now }
{
    units == PROTO_NAME.as_slice()
}

/// Refuses `__proto__` as the value of a name or a string.
pub fn refuse_proto(at: u32, units: &[u16]) -> Result<(), ReadRefused>
    ensures { result ≡ (if spec.is_proto units.now then unsupported at Feature.ProtoName else Ok tt) }
{
    if is_proto(units) {
        return Err(ReadRefused::Unsupported(Place(at), Feature::ProtoName));
    }
    Ok(())
}

/// The name or the reserved word at the front of a text (7.6).
pub fn name(alloc: Global, at: u32, z: &[char]) -> Result<(InputElement, usize), ReadRefused>
    requires some { 0 < length z.now }
    requires first { spec.is_name_part (slice_index z.now 0) ≡ true }
    ensures token { Gives (spec.name at z.now) result }
    ensures within { IfOk result (λ t. (1 ≤ t.1) × (t.1 ≤ length z.now)) }
{
    let n = name_len(z);
    if let Some(keyword) = reserved_word(&z[..n]) {
        return Ok((InputElement::Token(TokenForm::Reserved(keyword)), n));
    }
    let units = units_of(alloc, &z[..n])?;
    refuse_proto(at, units.as_slice())?;
    let text = Text::from_vec(units);
    Ok((InputElement::Token(TokenForm::Name(text)), n))
}

fn longest_of(table: &[(&[u8], Punctuator)], z: &[char]) -> (Option<Punctuator>, usize)
    ensures value { result ≡ spec.longest_of (map (λ row. (row.0.now, row.1)) table.now) z.now }
    ensures some { IfSome result.0 (λ _. 1 ≤ result.1) }
    ensures within { result.1 ≤ length z.now }
{
    let mut best = (None, 0);
    for row in table {
        if begins_with(z, row.0) && best.1 < row.0.len() {
            best = (Some(row.1), row.0.len());
        }
    }
    best
}

#[tactic(auto, unfolding(js_tree::specs::Lexing::longest_punctuator))]
fn longest_punctuator(z: &[char]) -> (Option<Punctuator>, usize)
    ensures value { result ≡ spec.longest_punctuator z.now }
    ensures some { IfSome result.0 (λ _. 1 ≤ result.1) }
    ensures within { result.1 ≤ length z.now }
{
    longest_of(&PUNCTUATORS, z)
}

/// The punctuator at the front of a text (7.7).
pub fn punctuator(at: u32, z: &[char]) -> Result<(InputElement, usize), ReadRefused>
    ensures token { result ≡ spec.punctuator at (spec.longest_punctuator z.now) }
    ensures within { IfOk result (λ t. (1 ≤ t.1) × (t.1 ≤ length z.now)) }
{
    match longest_punctuator(z) {
        (None, _) => Err(ReadRefused::Syntax(Place(at))),
        (Some(punctuator), n) => Ok((InputElement::Token(TokenForm::Punctuator(punctuator)), n)),
    }
}
