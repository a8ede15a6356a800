//! Laws on the runs of scripts of the whole language, by the definitions of `js_machine`.
#![tactic(auto)]

ghost use Rattle.machine_laws.specs.Turns.{MoreTurns};

/// The bound on the turns of loops is immaterial: a run is the same with any bound that is no lower than its budget of steps, and
/// of any two bounds the greater one changes only a run that is out of steps.
#[tactic(auto, using(crate::proofs::Turns::more_turns))]
pub fn turn_law()
    ensures { MoreTurns }
{}
