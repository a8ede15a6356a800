//! How high the parts of a tree are.
#![tactic(auto)]

mod heights;

pub use heights::{is_stmt_within, is_within};
