//! Decision diagrams, as tests.
#![tactic(auto)]

#[cfg(test)]
mod machine;
#[cfg(test)]
mod sizes;
#[cfg(test)]
mod tables;
