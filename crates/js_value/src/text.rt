ghost use Rattle.std.proofs.Common.{rules};
ghost use Rattle.std.specs.Prelude.{◌≡◌, ◌++◌, ◌<◌, ◌^◌, ℕ, length, nat_eq, slice_index, IfOk, OnOk};
ghost use Rattle.std.specs.Cmp.Lexicographic.{pointwise};
ghost use Rattle.std.specs.Cmp.Rules.{comparing, hashing};
ghost use Rattle.std.specs.Hash as fed;
ghost use Rattle.std.specs.Str.{bytes_eq};
ghost use Rattle.js_value.specs.Texts as spec;

use crate::{Bytes, NoMemory, Seq};
use std::alloc::Global;
use std::hash::{Hash, Hasher};
use std::marker::Model;

/// A string of the language: a list of 16-bit units (8.4).
#[derive(Debug, Drop)]
pub struct Text {
    units: Vec<u16>,
}

impl Model for Text {
    ghost use Rattle.std.specs.Prelude.{List, ℕ};
    ghost use Rattle.std.specs.Coded.{coded_list, coded_ℕ};

    ghost Value = { List ℕ };

    ghost coded = { coded_list coded_ℕ };

    ghost view = { λ t. t.units.items };
}

impl PartialEq for Text {
    ghost eq = { λ a b. pointwise nat_eq a b };

    ghost laws = { Prim.search (comparing, rules) };

    fn eq(&self, other: &Text) -> bool {
        self.units == other.units
    }
}

impl Eq for Text {
    ghost laws = { Prim.search (comparing, rules) };
}

impl Hash for Text {
    ghost hash_input = { λ a. fed.slice fed.u16 a };

    ghost respects_eq = { Prim.search (hashing, rules) };

    fn hash<H: Hasher>(&self, state: &mut H) {
        self.units.hash(state);
    }
}

/// Whether units are spelled so in ASCII.
pub fn is_spelled(units: &[u16], word: &[u8]) -> bool
    ensures text { result ≡ bytes_eq units.now word.now }
    ensures word { result ≡ bytes_eq word.now units.now }
{
    match (units, word) {
        ([u, units @ ..], [b, word @ ..]) => *u == u16::from(*b) && is_spelled(units, word),
        ([], []) => true,
        _ => false,
    }
}

impl Text {
    /// The text of these units.
    pub fn from_units(alloc: Global, units: &Seq<u16>) -> Result<Text, NoMemory>
        ensures { IfOk result (λ t. t ≡ units.now) }
    {
        Ok(Text {
            units: Vec::from_slice(alloc, units.as_slice())?,
        })
    }

    /// The text of a vector's units, without a copy.
    pub fn from_vec(units: Vec<u16>) -> Text
        ensures { result ≡ units.items }
    {
        Text { units }
    }

    /// The text of a Rust string: a character past U+FFFF gives two units.
    pub fn from_str(alloc: Global, s: &str) -> Result<Text, NoMemory>
        ensures { IfOk result (λ t. t ≡ spec.units_of s.now) }
    {
        let mut units = Vec::new(alloc);
        let mut pair = [0u16; 2];
        for c in s.chars() {
            units.extend_from_slice(c.encode_utf16(&mut pair))?;
        }
        Ok(Text { units })
    }

    /// A copy.
    pub fn copy(&self, alloc: Global) -> Result<Text, NoMemory>
        ensures { IfOk result (λ t. t ≡ self.now) }
    {
        Ok(Text {
            units: Vec::from_slice(alloc, &self.units)?,
        })
    }

    /// The units in order.
    pub fn as_slice(&self) -> &[u16]
        ensures { result.now ≡ self.now }
    {
        self.units.as_slice()
    }

    /// Whether this text is spelled so in ASCII.
    pub fn is_spelled(&self, word: &[u8]) -> bool
        ensures text { result ≡ bytes_eq self.now word.now }
        ensures word { result ≡ bytes_eq word.now self.now }
    {
        is_spelled(self.units.as_slice(), word)
    }

    /// How many units there are.
    pub fn len(&self) -> usize
        ensures { result ≡ length self.now }
    {
        self.units.len()
    }

    /// The unit at a position.
    pub fn unit(&self, i: usize) -> u16
        requires { i < length self.now }
        ensures { result ≡ slice_index self.now i }
    {
        self.units[i]
    }

    /// Each unit has 16 bits: a fact for callers' proofs, which a list of numbers alone doesn't show.
    pub fn fits(&self)
        ensures { (k : ℕ) → slice_index self.now k < 2 ^ 16 }
    {
        all_fit(&self.units)
    }

    /// The string literal of the text: in double quotes, ASCII alone.
    pub fn quoted(&self, alloc: Global) -> Result<Bytes, NoMemory>
        ensures { IfOk result (λ b. b ≡ spec.quoted self.now) }
    {
        let mut bytes = Vec::from_slice(alloc, b"\"")?;
        for u in self.units.as_slice() {
            push_unit(&mut bytes, *u)?;
        }
        bytes.push(b'"')?;
        Ok(Seq::from_vec(bytes))
    }
}

fn all_fit(_units: &Vec<u16>)
    ensures { (k : ℕ) → slice_index _units.now.items k < 2 ^ 16 }
{}

fn hex_digit(n: u16) -> u8
    requires { n < 16 }
    ensures { result ≡ spec.hex_digit n }
{
    if n < 10 {
        n as u8 + b'0'
    } else {
        n as u8 - 10 + b'a'
    }
}

#[tactic(auto, unfolding(crate::specs::Texts::quoted_unit))]
fn push_unit(bytes: &mut Vec<u8>, u: u16) -> Result<(), NoMemory>
    ensures { OnOk result (bytes.new.items ≡ bytes.old.items ++ spec.quoted_unit u) }
{
    if u == 34 || u == 92 {
        bytes.extend_from_slice(&[b'\\', u as u8])?;
        return Ok(());
    }
    if 32 <= u && u <= 126 {
        bytes.push(u as u8)?;
        return Ok(());
    }
    bytes.extend_from_slice(&[
        b'\\',
        b'u',
        hex_digit(u / 4096),
        hex_digit(u / 256 % 16),
        hex_digit(u / 16 % 16),
        hex_digit(u % 16),
    ])?;
    Ok(())
}
