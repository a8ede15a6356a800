//! The heap in code: objects, cells and scopes in arenas, and the internal methods of objects (8.12, 15.4.5).
#![tactic(auto)]

mod arena;
mod changes;
mod environment;
mod found;
mod heap;
mod methods;
mod object;

pub use environment::{CellNos, Scope, Scopes};
pub use found::{Found, Got, Putting};
pub use heap::Heap;
pub use object::Object;
