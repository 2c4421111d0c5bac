//! Grammars over the tokens of a line, and what reading functions of recursive descent stand on.
//! A grammar is a value: it has one meaning as a relation between tokens and what they say, and one as a
//! reader. For grammars that one token of lookahead decides the reader finds what is said, or exactly the
//! first token with which nothing goes on.
#![tactic(auto)]

mod cursor;

pub use cursor::{Cursor, Stop};
