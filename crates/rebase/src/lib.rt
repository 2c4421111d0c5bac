//! The batch of a commit: what a transaction's list of changes and the files that were staged for it make of the
//! catalogue's rows at the newest snapshot, whichever snapshot the transaction began at.
#![tactic(auto)]

mod batch;
mod creations;
mod dropped;
mod ends;
mod files;
mod made;
mod no;
mod spent;
mod stats;

pub use batch::make_batch;
pub use no::BatchNo;
