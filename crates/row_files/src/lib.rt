//! The rows of a transaction as synced files, and the rows of the files that a version sees.
#![tactic(auto)]

mod fault;
mod fresh;
mod jobs;
pub mod laws;
mod own;
mod reading;
mod tables;

pub use fault::{ReadNo, StageNo};
pub use reading::read_live;
pub use tables::stage;
