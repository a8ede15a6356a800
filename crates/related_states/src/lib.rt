//! Two heaps that correspond: their objects and cells by numbers that correspond, known values as they are, and other values as the
//! one stands for the other, such as a symbol for a value.
#![tactic(auto)]

ghost use Rattle.related_states.specs.Laws.{HeapsCorrespond};

/// Laws of heaps that correspond, for whatever corresponds in them: the internal methods of objects that correspond do corresponding
/// things (8.12, 15.4.5.1), and heaps that change alike still correspond. What is made next on the left corresponds to what is made
/// next on the right, where it is made on both sides.
#[tactic(auto, using(crate::proofs::Laws::heaps_correspond))]
pub fn heap_laws()
    ensures { HeapsCorrespond }
{}
