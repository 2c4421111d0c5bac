//! The devices of the system as the lake's traits: a folder, the standard streams, random numbers for new names, and
//! the clock. Each counts its errors, tells nothing of what it holds, and is trusted.
#![tactic(auto)]

mod draft;
mod folder;
mod host_disk;
mod names;
mod no;
mod path;
mod rows;
mod streams;
mod time;
mod words;

pub use draft::{HostDraft, HostFile};
pub use host_disk::HostDisk;
pub use names::HostNames;
pub use no::OpenNo;
pub use rows::expect_rows;
pub use streams::{StdSink, StdSource};
pub use time::HostClock;
pub use words::command_words;
