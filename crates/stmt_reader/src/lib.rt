//! Lines of a script: the session and the statement that each says, or the exact place at which it stops
//! being a line.
#![tactic(auto)]

mod definition;
mod laws;
mod line;
mod literals;
mod names;
mod numbers;
mod predicate;
mod rows;
mod statement;

pub use laws::{each_line_has_one_answer, each_line_says_one_thing};
pub use line::{LineNo, read_line, session_of_line};
