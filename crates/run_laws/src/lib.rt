//! Laws on all runs of scripts, by the rules of the whole language.
#![tactic(auto)]

ghost use Rattle.run_laws.specs.LaterLaw.{LaterRuns};
ghost use Rattle.run_laws.specs.SymbolLaw.{SymbolsValued};

/// Symbols and values, for every script, in every world and with every budget: the run in the world leaves, or the run along the
/// world's own choices stops with a need, or the one is the other with values for symbols: its host calls with their answers and
/// whether these were thrown, its ending and the heap. The choices are the truth values that the tested symbols have in the world,
/// and that run takes all of them. So an input that isn't given makes the run leave, as a number does that isn't one of the profile.
#[tactic(auto, using(crate::proofs::SymbolLaw::symbols_valued))]
pub fn symbol_law()
    ensures { SymbolsValued }
{}

/// Later scripts, after two starts with heaps that correspond and functions whose codes are the same but for captured names, numbers
/// of functions and places: whatever the script, the world and the budget are, both runs end, with the same host calls and heaps that
/// correspond, both leave with one cause, or both are out of steps.
#[tactic(auto, using(crate::proofs::LaterLaw::later))]
pub fn later_law()
    ensures { LaterRuns }
{}
