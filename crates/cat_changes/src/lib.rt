//! The changes text of a snapshot, both ways: what kinds of change the snapshot made, as the catalogue keeps
//! them.
#![tactic(auto)]

mod fault;
pub mod laws;
mod names;
mod order;
mod quotes;
mod reading;
mod writing;

pub use fault::BadChanges;
pub use reading::read_changes;
pub use writing::changes_text;
