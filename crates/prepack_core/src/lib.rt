//! The call that does all that the program does.
#![tactic(auto)]

mod answer;
mod evaluate;
mod flow;
mod paths;
mod report;
mod residual;
mod top;
mod value;
mod variables;
mod words;

pub use evaluate::Departure;
pub use flow::{Fetched, SOURCE_LIMIT, fetch, write_text};
pub use paths::paths_law;
pub use report::{Report, Status, tell};
pub use top::prepack;
pub use value::{Number, Value};
pub use variables::Variables;
pub use words::{Command, read_words};
