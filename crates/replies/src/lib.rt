//! How a reply is printed: its rows and its answer, each as a line under the head of its session and number.
#![tactic(auto)]

mod answers;
mod bytes;
mod lines;

pub use bytes::{push_number, push_numbers, push_shown, push_text, push_words};
pub use lines::push_reply;
