//! Runs of scripts keep heaps valid, by the definitions of `js_machine`.
#![tactic(auto)]

ghost use Rattle.valid_runs.specs.Runs.{ValidRuns};

/// From a valid heap with the objects of the realm, which the realm is, a run of any script in any world, and along any list of
/// choices, ends with a valid heap: each object is still in its place, with its class, its prototype and its depth, each cell is
/// still one, and what was thrown is a value of the heap.
#[tactic(auto, using(crate::proofs::Runs::valid_runs))]
pub fn valid_runs_law()
    ensures { ValidRuns }
{}
