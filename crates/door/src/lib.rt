//! The door: the calls by which sessions reach the catalogue, and what each promises to all of them.
#![tactic(auto)]

mod door;
mod no;

pub use door::Door;
pub use no::{BeginNo, CommitNo, ListNo, SpentNo};
