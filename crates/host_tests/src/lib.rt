//! Hosts, recorders round them, sources and sinks, as tests over objects in memory.
#![tactic(auto)]

#[cfg(test)]
mod hosts;
#[cfg(test)]
mod recorders;
#[cfg(test)]
mod shown;
#[cfg(test)]
mod streams;
