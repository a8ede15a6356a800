//! The paths of residuals and the names of listings.

ghost use Rattle.prepack_core.specs.RealmPaths.{PathsAreNames};

/// Each object that is there from the start, but the global one, is named by its path: a law, with nothing to run.
#[tactic(auto, using(crate::proofs::RealmPaths::paths_are_names))]
pub fn paths_law()
    ensures { PathsAreNames }
{}
