//! What a run is given and what it tells: inputs by their names, answers of the host, and the calls that were answered.
#![tactic(auto)]

ghost use Rattle.worlds.specs.Laws.{GivesAnswers, RecordsCalls};

mod inputs;

pub use host_box::{Answer, Calls, HostEvent};
pub use inputs::Inputs;

/// Laws on definitions. A recorder's record, after a call that was answered, means the calls of a run after that call, with the
/// answer and whether it was thrown. The answer that a run takes is the one at this place among the answers of the host.
#[tactic(auto, using(crate::proofs::Recording::records_calls, crate::proofs::Recording::gives_answers))]
pub fn world_laws()
    ensures calls { RecordsCalls }
    ensures answers { GivesAnswers }
{}
