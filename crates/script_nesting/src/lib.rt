//! How deeply the printed text of a script is nested, as a definition by structure: the least limit with which it is read.
#![tactic(auto)]

ghost use Rattle.script_nesting.specs.NestingCases.{NestingCases};

/// Cases of nesting, worked out by hand: with this limit the text is read, with one less something is nested too deep.
#[tactic(auto, using(crate::proofs::NestingCases::nesting_cases))]
pub fn nesting_cases()
    ensures { NestingCases }
{}
