//! Scripts with the texts of their runs, worked out by hand, by the definitions of `js_machine`.
#![tactic(auto)]

ghost use Rattle.worked_runs.specs.WorkedRuns.{WorkedRuns};
ghost use Rattle.worked_runs.specs.TooLong.{TooLong};

/// Runs of whole scripts on the realm, without inputs and answers: the text of each run that ends, with the code of its functions, and
/// where and why one leaves. And texts that are too long together have no sum.
#[tactic(auto, using(crate::proofs::WorkedTexts::worked_runs, crate::proofs::Lengths::too_long))]
pub fn worked_cases()
    ensures runs { WorkedRuns }
    ensures lengths { TooLong }
{}
