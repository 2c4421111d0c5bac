//! The tokens of a line, each with the offset of its first byte, and lines that spell tokens.
#![tactic(auto)]

mod bytes;
mod cut;
mod keywords;
mod laws;
mod lex;
mod signs;
mod spelling;
mod token;

pub use cut::{Cut, cut_of, first_number};
pub use keywords::word_of;
pub use laws::{forms_are_cut, quoted_tokens_stand, spelled_tokens_are_cut_again};
pub use spelling::spell;
pub use token::{Keyword, Kind, Sign, Token, TokenList};
