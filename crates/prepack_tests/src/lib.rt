//! The worked examples of the program and of the crates below it, as tests over objects in memory.
#![tactic(auto)]

#[cfg(test)]
mod program;
#[cfg(test)]
mod reading;
#[cfg(test)]
mod values;
