//! Shared decision diagrams over conditions that are numbered in order, with numbers as leaves.
#![tactic(auto)]

mod case;
mod chosen;
mod guarded;
mod leaves;
mod memory;
mod node;
mod operations;
mod search;
mod table;

// A crate can name `Diagrams` in a contract only if the types of its fields are exported.
#[doc(hidden)]
pub use case::Case;
pub use chosen::Chosen;
pub use guarded::GuardedLeaves;
pub use memory::NoMemory;
pub use node::{CondNo, Diagram, NodeForm};
pub use table::Diagrams;
