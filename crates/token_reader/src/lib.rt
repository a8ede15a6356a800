//! What is left of the tokens while they are read, and the productions of the grammar in which nothing nests.
#![tactic(auto)]

mod ends;
mod forms;
mod names;
mod operators;
mod reader;
mod statements;
mod tokens;

pub use names::Params;
pub use reader::Reader;
pub use statements::Closer;
