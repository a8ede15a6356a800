//! The form of residual scripts.
#![tactic(auto)]

ghost use Rattle.residual_form.specs.FormCases.{StatementCases};
ghost use Rattle.residual_form.specs.SmallForm.{SmallForm};
ghost use Rattle.residual_form.specs.WholeCases.{WholeCases};

mod act;
mod body;
mod form;
mod made;
mod paths;
mod sought;
mod statements;
mod values;
mod words;

pub use form::{is_fresh, is_residual};
pub use made::creations;
pub use paths::PATHS;

/// Cases of the form, of creations and of freshness, worked out by hand.
#[tactic(auto, using(crate::proofs::FormCases::statement_cases, crate::proofs::WholeCases::whole_cases,))]
pub fn residual_cases()
    ensures statements { StatementCases }
    ensures whole { WholeCases }
{}

/// Residuals of variables have the form.
#[tactic(auto, using(crate::proofs::SmallForms::small_form))]
pub fn small_form_law()
    ensures { SmallForm }
{}
