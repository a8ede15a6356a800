ghost use Rattle.std.specs.Prelude.{[], ◌≡◌, ◌≤◌, ◌<◌, ◌&&◌, pos, min, not, true, length, None, Some, option_map, IfOk, IfErr, IfSome, IfNone};
ghost use Rattle.std.specs.List.{list_all};
ghost use Rattle.std.specs.Char.{is_ascii_digit};
ghost use Rattle.js_value.specs.Conversions.{digits_value, are_digits};
ghost use Rattle.clap.specs.Lexer.{strip_byte, name_and_value};
ghost use Rattle.pp_words.specs.Words as spec;
ghost use Rattle.pp_words.specs.declared.command.WordsRefused.TheVariants.{Usage};

use crate::{Item, WordsRefused};
use js_value::{NoMemory, Primitive, Text};
use std::alloc::Global;

/// The greatest magnitude of a number of the profile.
const GREATEST: u64 = 9_007_199_254_740_991;

fn is_digit(b: u8) -> bool
    ensures { result ≡ is_ascii_digit b }
{
    b'0' <= b && b <= b'9'
}

pub(crate) fn all_digits(word: &[u8]) -> bool
    ensures { result ≡ list_all is_ascii_digit word.now }
{
    word.iter().all(|b| is_digit(*b))
}

/// The number that decimal digits spell, or one above the greatest of the profile where it is greater.
pub(crate) fn capped(digits: &[u8]) -> u64
    requires { list_all is_ascii_digit digits.now ≡ true }
    ensures { result ≡ min (digits_value digits.now) 9007199254740992 }
{
    let mut value = 0;
    for b in digits {
        value = (value * 10 + u64::from(*b - b'0')).min(GREATEST + 1);
    }
    value
}

/// The number of digits without a leading zero, in the profile's range.
fn magnitude(word: &[u8]) -> Option<u64>
    ensures value { result ≡ spec.magnitude word.now }
    ensures within { IfSome result (λ n. n ≤ 9007199254740991) }
{
    if word.is_empty() || !all_digits(word) || word[0] == b'0' {
        return None;
    }
    let value = capped(word);
    if value <= GREATEST { Some(value) } else { None }
}

/// What follows a first character of ASCII.
fn behind(word: &str, first: char) -> Option<&str>
    requires { first < 128 }
    ensures { option_map (λ s. s.now) result ≡ strip_byte first word.now }
{
    word.strip_prefix(first)
}

fn number(word: &str) -> Option<i64>
    ensures { result ≡ spec.number word.now }
{
    if word == "0" {
        return Some(0);
    }
    match behind(word, '-') {
        Some(digits) => Some(-(magnitude(digits.as_bytes())? as i64)),
        None => Some(magnitude(word.as_bytes())? as i64),
    }
}

fn text(alloc: Global, word: &str) -> Result<Primitive, NoMemory>
    ensures { IfOk result (λ v. v ≡ spec.number_or_text None word.now) }
{
    let shown = behind(word, '\'').unwrap_or(word);
    Ok(Primitive::Text(Text::from_str(alloc, shown)?))
}

/// The value that a word spells.
fn value(alloc: Global, word: &str) -> Result<Primitive, NoMemory>
    ensures { IfOk result (λ v. v ≡ spec.value word.now) }
{
    if word == "true" {
        return Ok(Primitive::Boolean(true));
    }
    if word == "false" {
        return Ok(Primitive::Boolean(false));
    }
    match number(word) {
        Some(n) => Ok(Primitive::Number(n)),
        None => text(alloc, word),
    }
}

/// The next answer, thrown or given.
fn answered(alloc: Global, shown: &str, threw: bool) -> Result<Item, NoMemory>
    ensures { IfOk result (λ i. i ≡ record { name = []; value = spec.value shown.now; threw = threw }) }
{
    Ok(Item {
        name: Text::from_vec(Vec::new(alloc)),
        value: value(alloc, shown)?,
        threw,
    })
}

fn answer(alloc: Global, given: &str) -> Result<Item, NoMemory>
    ensures { IfOk result (λ i. i ≡ spec.answer (strip_byte 33 given.now) given.now) }
{
    match behind(given, '!') {
        Some(thrown) => answered(alloc, thrown, true),
        None => answered(alloc, given, false),
    }
}

/// The item of a name, which may be empty, and of what was given under it.
fn named_item(alloc: Global, name: &str, given: &str) -> Result<Item, NoMemory>
    ensures { IfOk result (λ i. i ≡ spec.named_item name.now given.now) }
{
    if name.is_empty() {
        return answer(alloc, given);
    }
    Ok(Item {
        name: Text::from_str(alloc, name)?,
        value: value(alloc, given)?,
        threw: false,
    })
}

/// The parts before and behind the first `=`.
fn parts(word: &str) -> Option<(&str, &str)>
    ensures some { IfSome result (λ p. name_and_value word.now ≡ (p.0.now, Some p.1.now)) }
    ensures none { IfNone result (name_and_value word.now ≡ (word.now, None)) }
{
    word.split_once('=')
}

/// The item that a word spells.
pub(crate) fn item(alloc: Global, word: &str) -> Result<Item, WordsRefused>
    ensures ok { IfOk result (λ i. spec.item word.now ≡ Some i) }
    ensures err { IfErr result (λ e. e ≡ Usage → spec.item word.now ≡ None) }
{
    match parts(word) {
        Some((name, given)) => Ok(named_item(alloc, name, given)?),
        None => Err(WordsRefused::Usage),
    }
}
