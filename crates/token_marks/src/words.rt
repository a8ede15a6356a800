//! Words and names by their spelling.

ghost use Rattle.std.specs.Prelude.{◌≡◌, IfOk, map};
ghost use Rattle.std.specs.Fmt.{signed_decimal};
ghost use Rattle.js_grammar.specs.Marks as marks;

use js_tree::{Feature, KEYWORDS, Keyword, TokenForm};
use js_value::{Kind, NoMemory, Text, push_number};
use std::alloc::Global;

/// The text of a word in ASCII.
pub fn text_of(alloc: Global, word: &[u8]) -> Result<Text, NoMemory>
    ensures { IfOk result (λ t. t ≡ word.now) }
{
    let mut units = Vec::with_capacity(alloc, word.len())?;
    for b in word {
        units.push(u16::from(*b))?;
    }
    Ok(Text::from_vec(units))
}

fn spelling(mut table: &'static [(&'static [u8], Keyword)], word: Keyword) -> &'static [u8]
    ensures { result.now ≡ marks.spelling word (map (λ row. (row.0.now, row.1)) table.entry.now) }
{
    while let [row, rest @ ..] = table {
        if row.1 == word {
            return row.0;
        }
        table = rest;
    }
    b""
}

/// How a reserved word is spelled (7.6.1).
pub fn spelled(word: Keyword) -> &'static [u8]
    ensures { result.now ≡ marks.spelled word }
{
    spelling(&KEYWORDS, word)
}

/// Names that aren't supported, except as property names.
pub fn barred(name: &Text) -> Option<Feature>
    ensures { result ≡ marks.barred name.now }
{
    if name.is_spelled(b"eval") {
        return Some(Feature::Eval);
    }
    if name.is_spelled(b"arguments") {
        return Some(Feature::Arguments);
    }
    None
}

/// Whether a name begins the form of an input.
pub fn is_abstract(name: &Text) -> bool
    ensures { result ≡ marks.is_abstract name.now }
{
    name.is_spelled(b"__abstract")
}

/// Whether a name begins the form of a host call.
pub fn is_residual(name: &Text) -> bool
    ensures { result ≡ marks.is_residual name.now }
{
    name.is_spelled(b"__residual")
}

/// The names of the two forms.
pub fn form_name(name: &Text) -> Option<Feature>
    ensures { result ≡ marks.form_name name.now }
{
    if is_abstract(name) {
        return Some(Feature::AbstractForm);
    }
    if is_residual(name) {
        return Some(Feature::ResidualForm);
    }
    None
}

/// The type that a text names.
pub fn kind_of(text: &Text) -> Option<Kind>
    ensures { result ≡ marks.kind_of text.now }
{
    if text.is_spelled(b"number") {
        return Some(Kind::Number);
    }
    if text.is_spelled(b"boolean") {
        return Some(Kind::Boolean);
    }
    if text.is_spelled(b"string") {
        return Some(Kind::Text);
    }
    None
}

/// The decimal text of a number.
fn decimal(alloc: Global, n: i64) -> Result<Text, NoMemory>
    ensures { IfOk result (λ t. t ≡ signed_decimal n) }
{
    let mut digits = Vec::new(alloc);
    push_number(&mut digits, n)?;
    text_of(alloc, digits.as_slice())
}

/// The name of a property that a token is.
pub fn property_name(alloc: Global, form: &TokenForm) -> Result<Option<Text>, NoMemory>
    ensures { IfOk result (λ name. name ≡ marks.property_name form.now) }
{
    match form {
        TokenForm::Name(text) => Ok(Some(text.copy(alloc)?)),
        TokenForm::Reserved(word) => Ok(Some(text_of(alloc, spelled(*word))?)),
        TokenForm::Str(text) => Ok(Some(text.copy(alloc)?)),
        TokenForm::Number(n) => Ok(Some(decimal(alloc, *n)?)),
        TokenForm::Punctuator(_) => Ok(None),
    }
}
