//! What the tokens of a script are put on: the lines of its text, or the line of a function's code.
#![tactic(auto)]

mod bound;
mod code_line;
mod name_places;
mod page;
mod sheet;
mod words;

pub use code_line::CodeLine;
pub use page::Page;
pub use sheet::Sheet;
pub use words::{
    assignment_operator, binary_level, is_in, is_number, is_postfix, key, level, literal,
    logic_level, logic_operator, operator, two_literals, unary_operator,
};
