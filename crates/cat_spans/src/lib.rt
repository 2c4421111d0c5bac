//! Spans of numbers in groups: which span is the first that is one too many over a number, and which is the first with a
//! number that no other covers.
#![tactic(auto)]

mod gaps;
mod limits;
mod marks;
mod span;

pub use gaps::first_gap;
pub use limits::first_past;
pub use span::{Group, Span};
