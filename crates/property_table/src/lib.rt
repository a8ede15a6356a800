//! The properties of an object in code: a table by key, in the order of creation (8.6.1).
#![tactic(auto)]

mod slots;
mod table;

pub use table::{Properties, PropertyTable};
