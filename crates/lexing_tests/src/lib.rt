//! Tokens of short texts, as tests.
#![tactic(auto)]

#[cfg(test)]
mod tokens;
