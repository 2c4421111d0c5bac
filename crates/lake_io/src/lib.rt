//! The world outside as traits: where bytes come from and go to, where new names and the time come from. Each
//! that can fail has a count of its faults, and forms in memory that fail at the calls of a list.
#![tactic(auto)]

mod clock;
mod faults;
mod names;
mod sink;
mod source;

pub use clock::{Clock, FixedClock};
pub use faults::{FailList, Failed, FaultInjector};
pub use names::{CountNames, Names};
pub use sink::{MemSink, Sink, SureSink, write_all};
pub use source::{MemSource, Source, SureSource};
