//! The text of a script doesn't depend on the places of its tree.
#![tactic(auto)]

ghost use Rattle.place_free_text.specs.SameText.{SameText};

/// A law on definitions: scripts that are the same but for places have the same text.
#[tactic(auto, using(crate::proofs::Law::same_text))]
pub fn place_free_text()
    ensures { SameText }
{}
