//! The own properties of an object in code: [[DefineOwnProperty]] of objects and of arrays (8.12.9, 15.4.5.1).
#![tactic(auto)]

mod answer;
mod array;
mod index;
mod plain;

pub use answer::Defined;
pub use array::define_in_array;
pub use index::{array_index, length_of};
pub use plain::define;
