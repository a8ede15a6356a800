//! All tokens of a text.

ghost use Rattle.std.specs.Prelude.{IfOk, OnOk, ◌++◌, ◌≡◌, ◌<◌, ◌≤◌, ◌^◌, ◌+◌, false, length};
ghost use Rattle.std.specs.Str.{chars};
ghost use Rattle.js_tree.specs.Lexing as spec;
ghost use Rattle.js_tree.specs.Refusals.{Gives};

use crate::characters::{char_at, is_line_end, is_white_space, rest, width_between};
use crate::comments::{block_comment, line_comment};
use crate::numbers::number;
use crate::strings::string;
use crate::words::{name, punctuator};
use js_tree::{Feature, InputElement, ReadRefused, Token, TokenForm, Tokens, is_name_start};
use js_value::{NoMemory, Place, Seq};
use std::alloc::Global;
use std::str;

/// The token at the front of a text (7.5), and how many characters it takes.
#[tactic(auto, using(crate::proofs::Scanning::scanning), unfolding(js_tree::specs::Lexing::scan_token))]
fn scan_token(alloc: Global, at: u32, z: &[char]) -> Result<(InputElement, usize), ReadRefused>
    requires some { 0 < length z.now }
    requires fits { at + spec.width z.now < 2 ^ 32 }
    ensures token { Gives (spec.scan_token at z.now) result }
    ensures within { IfOk result (λ t. (1 ≤ t.1) × (t.1 ≤ length z.now)) }
{
    let c = z[0];
    if is_name_start(c) {
        return name(alloc, at, z);
    }
    if c.is_ascii_digit() {
        return number(at, z);
    }
    if c == '.' && char_at(z, 1).is_ascii_digit() {
        return Err(ReadRefused::Unsupported(Place(at), Feature::NumberLiteral));
    }
    if c == '"' || c == '\'' {
        return string(alloc, at, z);
    }
    if c == '\\' {
        return Err(ReadRefused::Unsupported(Place(at), Feature::IdentifierEscape));
    }
    punctuator(at, z)
}

/// The white space, the line end, the comment or the token at the front of a text, and how many characters it takes.
#[tactic(auto, using(crate::proofs::Scanning::scanning), unfolding(js_tree::specs::Lexing::scan))]
fn scan(alloc: Global, at: u32, z: &[char]) -> Result<(InputElement, usize), ReadRefused>
    requires some { 0 < length z.now }
    requires fits { at + spec.width z.now < 2 ^ 32 }
    ensures token { Gives (spec.scan at z.now) result }
    ensures within { IfOk result (λ t. (1 ≤ t.1) × (t.1 ≤ length z.now)) }
{
    let c = z[0];
    let next = char_at(z, 1);
    if is_white_space(c) {
        return Ok((InputElement::WhiteSpace, 1));
    }
    if is_line_end(c) {
        return Ok((InputElement::LineEnd, 1));
    }
    if c == '/' && next == '/' {
        return line_comment(z);
    }
    if c == '/' && next == '*' {
        return block_comment(at, rest(z, 2));
    }
    scan_token(alloc, at, z)
}

/// Keeps a token, and answers whether a line end stands before what follows.
fn keep(
    tokens: &mut Seq<Token>,
    at: u32,
    end: u32,
    line_before: bool,
    element: InputElement,
) -> Result<bool, NoMemory>
    ensures kept { OnOk result (tokens.new ≡ tokens.old ++ spec.kept at end line_before element) }
    ensures line { IfOk result (λ line. line ≡ spec.line_after line_before element) }
{
    match element {
        InputElement::WhiteSpace => Ok(line_before),
        InputElement::LineEnd => Ok(true),
        InputElement::Token(form) => {
            tokens.push(Token {
                at: Place(at),
                end: Place(end),
                line_before,
                form,
            })?;
            Ok(false)
        }
    }
}

fn tokens_of(alloc: Global, z: &[char]) -> Result<Seq<Token>, ReadRefused>
    requires { spec.width z.now < 2 ^ 32 }
    ensures { Gives (spec.lex_from 0 false 0 z.now) result }
{
    let mut tokens = Seq::new(alloc);
    let mut line_before = false;
    let mut i = 0;
    let mut at = 0;
    while i < z.len() {
        let (element, n) = scan(alloc, at, rest(z, i))?;
        let end = at + width_between(z, i, i + n);
        line_before = keep(&mut tokens, at, end, line_before, element)?;
        i += n;
        at = end;
    }
    Ok(tokens)
}

fn characters_of(alloc: Global, text: &str) -> Result<Vec<char>, NoMemory>
    ensures { IfOk result (λ characters. characters.items ≡ chars text.now) }
{
    Ok(text.chars().collect(alloc)?)
}

/// The tokens of a text in UTF-8 (7), or the first fault with its place: a byte that is no UTF-8, and else the first
/// character at which no token begins or goes on. `NoMemory` comes only where there is no memory.
pub fn lex(alloc: Global, bytes: &[u8]) -> Result<Tokens, ReadRefused>
    requires { length bytes.now < 2 ^ 32 }
    ensures { Gives (spec.lexed bytes.now) result }
{
    let text = match str::from_utf8(bytes) {
        Ok(text) => text,
        Err(fault) => return Err(ReadRefused::Syntax(Place(fault.valid_up_to() as u32))),
    };
    let characters = characters_of(alloc, text)?;
    let items = tokens_of(alloc, characters.as_slice())?;
    Ok(Tokens {
        items,
        end: Place(bytes.len() as u32),
    })
}
