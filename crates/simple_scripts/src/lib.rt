//! Simple scripts, those that are evaluated so far: their names, trees and texts, and the residuals that they have.
#![tactic(auto)]

mod names;
mod scripts;
mod sums;
mod taken;
mod words;

pub use scripts::is_simple;
