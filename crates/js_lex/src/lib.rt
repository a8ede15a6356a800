//! Cuts a text into tokens (7).
#![tactic(auto)]

mod characters;
mod comments;
mod numbers;
mod strings;
mod tokens;
mod words;

pub use tokens::lex;
