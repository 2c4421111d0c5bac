//! Whether a list of changes may be committed over the snapshots past its base: the kinds of change that it makes
//! are compared with those of each such snapshot, and the first pair that conflicts is told.
#![tactic(auto)]

mod clash;
pub mod laws;
mod search;

pub use clash::{ClashRef, first_clash, own_clash};
