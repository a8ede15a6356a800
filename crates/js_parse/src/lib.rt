//! The parser: each production of the grammar is a function.
#![tactic(auto)]

ghost use Rattle.js_grammar.specs.Reading as spec;
ghost use Rattle.js_tree.specs.Refusals.{Gives};

mod expressions;
mod frames;
mod functions;
mod parser;
mod primary;
mod stack;
mod statements;

use crate::parser::Parser;
use js_tree::{ReadRefused, Script, Tokens};
use js_value::Seq;
use std::alloc::Global;
use token_reader::{Closer, Reader};

/// The script of tokens before its early checks, or the first fault with its place: what can't go on, what isn't
/// supported, or a part that is nested deeper than the limit. `NoMemory` comes only where there is no memory.
///
/// The tokens are gone over once. What is counted as nested is read by recursion, as deep as the limit allows; lists are
/// loops, and operators, chains of `new` and nested object literals stand on a stack of their own.
#[tactic(auto, unfolding(js_grammar::specs::Reading::read, js_grammar::specs::Reading::read_by))]
pub fn parse(alloc: Global, tokens: &Tokens, limit: u32) -> Result<Script, ReadRefused>
    ensures { Gives (spec.read tokens.now limit) result }
{
    let mut parser = Parser {
        reader: Reader::new(alloc, tokens, limit),
    };
    let body = parser.elements(Closer::End)?;
    Ok(Script {
        directive: false,
        body,
        funcs: Seq::from_vec(parser.reader.functions),
    })
}
