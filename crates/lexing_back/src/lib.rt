//! Reading back as a definition, first half: the text of a script gives the tokens that it was written with.
#![tactic(auto)]

ghost use Rattle.lexing_back.specs.LexingBack.{LexesBack};

/// A law on definitions: the text of each script whose parts are such as reading gives has no fault of tokens, and its
/// tokens are those of its pieces, each with whether a line end stands before it.
#[tactic(auto, using(crate::proofs::Law::lexes_back))]
pub fn lexing_back()
    ensures { LexesBack }
{}
