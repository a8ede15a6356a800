//! The trees of scripts, how reading refuses a text, and the definitions of the language's texts.
#![tactic(auto)]

ghost use Rattle.js_tree.specs.EarlyCases.{EarlyCases};
ghost use Rattle.js_tree.specs.FlatCases.{FlatCases};
ghost use Rattle.js_tree.specs.NameCases.{NameCases};

mod characters;
mod expression;
mod flat;
mod refusal;
mod statement;
mod token;
mod weights;

pub use characters::{is_name_part, is_name_start};
pub use expression::{Elements, Expr, ExprForm, Exprs, Field, Fields, LogicOp, StepOp};
pub use flat::is_flat;
pub use refusal::{Feature, ReadRefused};
pub use statement::{
    Case, Cases, Catch, Declarator, Declarators, Finally, ForStart, ForTarget, Func, Funcs, Name,
    Names, Script, Stmt, StmtForm, Stmts,
};
pub use token::{
    InputElement, KEYWORDS, Keyword, PUNCTUATORS, Punctuator, Token, TokenForm, Tokens,
};
pub use weights::{host_forms, is_closed, nodes};

/// Cases of the early checks, worked out by hand.
#[tactic(auto, using(crate::proofs::EarlyCases::early_cases))]
pub fn early_check_cases()
    ensures { EarlyCases }
{}

/// Cases of host calls, closed scripts and flat scripts, worked out by hand.
#[tactic(auto, using(crate::proofs::FlatCases::flat_cases))]
pub fn flat_script_cases()
    ensures { FlatCases }
{}

/// Cases of free and of hoisted names, worked out by hand.
#[tactic(auto, using(crate::proofs::NameCases::name_cases))]
pub fn name_cases()
    ensures { NameCases }
{}
