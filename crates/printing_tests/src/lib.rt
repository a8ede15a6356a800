//! Scripts as they are printed, and codes of functions on one line, as tests over texts that are read.
#![tactic(auto)]

#[cfg(test)]
mod code_lines;
#[cfg(test)]
mod expressions;
#[cfg(test)]
mod long_texts;
#[cfg(test)]
mod rows;
#[cfg(test)]
mod sheets;
#[cfg(test)]
mod statements;
#[cfg(test)]
mod strict;
