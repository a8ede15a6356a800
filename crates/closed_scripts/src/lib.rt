//! The runs of closed scripts, by the definitions of `js_machine`: scripts with neither inputs nor host calls.
#![tactic(auto)]

ghost use Rattle.closed_scripts.specs.Closed.{ClosedScripts};

/// The events of a closed script are steps and turns until it ends, throws or leaves. So it does the same in every world and along
/// every list of choices, and the steps of its open tree are its steps.
#[tactic(auto, using(crate::proofs::Closed::closed_scripts))]
pub fn closed_scripts_law()
    ensures { ClosedScripts }
{}
