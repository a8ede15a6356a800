//! The heap as a definition: objects and cells (8.6), environments (10.2), and the internal methods of objects by their numbered steps
//! (8.12, 15.4.5).
#![tactic(auto)]

ghost use Rattle.plain_heap.specs.Laws.{ChangesValid, DefinesValid, DeletesProperties, GetsWhatWasPut, GivesValues, MakesValid, SetsProperties};

/// Laws of properties, for every object: one that is set is there and changes no other, one that was deleted isn't there and
/// comes last when it is made again (8.6.1, 8.12), and a value that was put is what is got, for arrays too (8.12.3, 8.12.5,
/// 15.4.5.1).
#[tactic(auto, using(crate::proofs::Properties::sets_properties, crate::proofs::Properties::deletes_properties, crate::proofs::Puts::gets_what_was_put))]
pub fn property_laws()
    ensures sets { SetsProperties }
    ensures deletes { DeletesProperties }
    ensures gets { GetsWhatWasPut }
{}

/// Laws of valid heaps, for every heap (8.6, 8.12, 10.2, 15.4.5.1): where an operation is given values of the heap, what it leaves
/// is valid again and each number of an object or a cell is still one; and what a valid heap gives is there.
#[tactic(auto, using(crate::proofs::Making::makes_valid, crate::proofs::Changing::changes_valid, crate::proofs::Lengths::defines_valid, crate::proofs::Giving::gives_values))]
pub fn valid_laws()
    ensures makes { MakesValid }
    ensures changes { ChangesValid }
    ensures defines { DefinesValid }
    ensures gives { GivesValues }
{}
