//! The text of statements: lines are read, and statements are printed as lines that say them.
#![tactic(auto)]

mod draft;
mod laws;
mod lists;
mod names;
mod predicate;
mod printer;
mod reader;
mod rows;
mod statement;

pub use laws::{a_line_answers_what_it_says, what_lines_say_can_be_printed};
pub use printer::print;
pub use reader::read_line;
pub use stmt_reader::{
    LineNo, each_line_has_one_answer, each_line_says_one_thing, session_of_line,
};
