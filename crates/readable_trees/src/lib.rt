//! Whether a script is one that reading can give.
#![tactic(auto)]

mod expressions;
mod inputs;
mod items;
mod order;
mod script;
mod statements;
mod words;

pub use script::is_readable;
