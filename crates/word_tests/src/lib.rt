//! What the words of a command line ask for, as tests.
#![tactic(auto)]

#[cfg(test)]
mod commands;
