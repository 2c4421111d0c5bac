//! One session of the lake: what it answers to each statement, over any door.
#![tactic(auto)]

mod answer;
mod begin;
mod begin_at;
mod commit;
mod literals;
mod replies;
mod rollback;
mod rows;
mod select;
mod session;
mod snapshots;
mod staging;
mod write;

pub use session::Session;
