//! Properties in code, as tests.
#![tactic(auto)]

#[cfg(test)]
mod calls;
#[cfg(test)]
mod inputs;
#[cfg(test)]
mod plain;
#[cfg(test)]
mod sizes;
