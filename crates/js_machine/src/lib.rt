//! What a script does: its run in a world or along choices, step by step, the listing of the heap that it leaves, and when two
//! runs agree. The definitions stand in `specs/`, and the crates that run or transform scripts are proved against them.
#![tactic(auto)]

ghost use Rattle.js_machine.specs.Machine.Laws.{MoreSteps};

/// A law of runs of scripts of the whole language: more steps don't change a run that ended or left.
#[tactic(auto, using(crate::proofs::Steps::more_steps))]
pub fn run_laws()
    ensures { MoreSteps }
{}
