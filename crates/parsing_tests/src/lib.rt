//! Reading, as tests over texts: what is read, what is refused and where, how deep parts may nest, and long texts.
#![tactic(auto)]

#[cfg(test)]
mod sizes;
#[cfg(test)]
mod texts;
