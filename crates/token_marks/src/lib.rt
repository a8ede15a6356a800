//! What a token is in a production of the grammar, and what a production asks about a tree that it has read.
#![tactic(auto)]

mod operators;
mod statements;
mod trees;
mod words;

pub use operators::{
    Level, Operator, assignment, is_delete, is_postfix, literal, postfix, prefix, tight, unary,
};
pub use statements::{
    Beginning, Jump, begins, continues_declared, ends_case, extends, is_use_strict, joins,
    jump_form,
};
pub use trees::{is_name, is_string_statement, is_target, last_has_init};
pub use words::{
    barred, form_name, is_abstract, is_residual, kind_of, property_name, spelled, text_of,
};
