//! The text of scripts as a definition: tokens with parentheses where a part is looser than its place takes, and the lines that
//! they make.
#![tactic(auto)]

ghost use Rattle.script_text.specs.PrintCases.{PrintCases};

mod gap;

pub use gap::Gap;

/// Cases of the text of scripts, worked out by hand.
#[tactic(auto, using(crate::proofs::PrintCases::print_cases))]
pub fn printing_cases()
    ensures { PrintCases }
{}
