//! Writes scripts as text.
#![tactic(auto)]

mod expressions;
mod functions;
mod leftmost;
mod statements;

pub use functions::{code_text, print};
