//! Operators and conversions of values that are no objects, as tests.
#![tactic(auto)]

#[cfg(test)]
mod operators;
#[cfg(test)]
mod spelled;
