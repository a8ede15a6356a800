//! What objects are made of: values, classes, properties and descriptors; and what a change of a property comes to (8.12.9).
#![tactic(auto)]

mod change;
mod class;
mod descriptor;
mod number;
mod property;
mod value;

pub use change::{Verdict, changed, judge, made};
pub use class::Class;
pub use descriptor::Descriptor;
pub use number::{CellNo, ObjNo, ScopeNo};
pub use property::Property;
pub use value::Value;
