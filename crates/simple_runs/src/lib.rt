//! Simple scripts: their rules, by which `evaluate` is proved, and that by those of the whole language they do the same.
#![tactic(auto)]

ghost use Rattle.std.specs.Prelude.{◌≡◌, ℕ, List, [], IsTrue};
ghost use Rattle.std.specs.List.{IsDistinct};
ghost use Rattle.std.specs.Map.{keys_of};
ghost use Rattle.std.specs.Str.{bytes_eq};
ghost use Rattle.js_value.specs.declared.primitive.Primitive.{Primitive};
ghost use Rattle.js_tree.specs.Count.{nodes};
ghost use Rattle.residual_form.specs.Small.{is_without_wrapper};
ghost use Rattle.js_machine.specs.Machine.Walks.{World, Ended, Normally, plain};
ghost use Rattle.simple_runs.specs.Placed.{Places, placed};
ghost use Rattle.simple_runs.specs.PlainVariables.{are_plain_variables};
ghost use Rattle.simple_runs.specs.SimpleListings.{SimpleListings};
ghost use Rattle.simple_runs.specs.SimpleRuns.{realm_with, SimpleRuns};

/// The residual of variables is a `var` statement of constants, and rebuilds them by the rules of the whole language, wherever
/// its parts lie: a law, with nothing to run.
pub fn snapshot_law()
    ensures residual { (vs : List (List ℕ × Primitive)) (at : ℕ) (places : ℕ → Places) →
        IsTrue (are_plain_variables vs) → IsTrue (is_without_wrapper (placed at places vs)) }
    ensures rebuilds { (vs : List (List ℕ × Primitive)) (at : ℕ) (places : ℕ → Places) (w : World) →
        IsTrue (are_plain_variables vs) → IsDistinct bytes_eq (keys_of vs) →
        plain (placed at places vs) w (nodes (placed at places vs)) ≡ Ended [] Normally (realm_with vs) }
{}

/// A law of simple scripts: by the rules of the whole language they run as by their own.
#[tactic(auto, using(crate::proofs::SimpleScripts::simple_runs_hold))]
pub fn simple_run_law()
    ensures { SimpleRuns }
{}

/// A law of simple scripts: what they leave is listed by the rules of the whole language as by their own, so runs that agree by
/// their own rules agree.
#[tactic(auto, using(crate::proofs::VariableListings::simple_listings))]
pub fn simple_listing_law()
    ensures { SimpleListings }
{}
