//! Early checks of scripts that are the same but for places.
#![tactic(auto)]

ghost use Rattle.early_back.specs.EarlyBack.{EarlyBack, NoneBefore, ReadableBack};

/// Two scripts that are the same but for places have early faults alike: where one is readable, the other one has no fault,
/// and is readable too. That the one has no fault isn't enough: whether two inputs of two types are a fault depends on places.
#[tactic(auto, using(crate::proofs::Law::early_back, crate::proofs::Law::readable_back, crate::proofs::Witness::none_before))]
pub fn early_back()
    ensures faults { EarlyBack }
    ensures readable { ReadableBack }
    ensures places { NoneBefore }
{}
