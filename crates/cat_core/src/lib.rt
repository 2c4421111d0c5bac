//! The catalogue's core: its rows, the files that they name and what sixteen sessions have open, behind the door.
#![tactic(auto)]

mod batch;
mod calls;
mod catalogue;
mod commit;
mod compare;
mod holding;
mod landing;
mod listing;
mod makeable;
mod making;
mod names;
mod opening;
mod place;
mod preparing;
mod readable;
mod seen;
mod sight;
mod workable;

pub use catalogue::CatCore;
