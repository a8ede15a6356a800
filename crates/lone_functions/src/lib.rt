//! Scripts of one function alone.
#![tactic(auto)]

ghost use Rattle.lone_functions.specs.AloneCases.{AloneCases};
ghost use Rattle.lone_functions.specs.AloneLaw.{AloneLaw};

mod anew;
mod lone;
mod named;
mod statements;

pub use lone::alone;

/// Cases of functions alone, worked out by hand.
#[tactic(auto, using(crate::proofs::AloneCases::alone_cases))]
pub fn alone_cases()
    ensures { AloneCases }
{}

/// Where the functions of a script stand in source order, each named once, so do those of a function alone.
#[tactic(auto, using(crate::proofs::OrderLaw::alone_law))]
pub fn alone_law()
    ensures { AloneLaw }
{}
