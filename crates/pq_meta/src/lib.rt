//! The footer of an Apache Parquet file, both ways: its columns, its row groups, and where their chunks lie
//! (Apache Parquet format, "File Format" and "Metadata").
//!
//! Reading has two phases. The first reads all fields of the footer into drafts and meets the faults of their
//! bytes; the second goes over the drafts alone and meets the faults of what they say.
#![tactic(auto)]

mod checks;
mod codes;
mod columns;
mod drafts;
mod fault;
mod fields;
mod groups;
mod known;
mod laws;
pub mod limits;
mod meta;
mod reading;
mod writing;

pub use fault::MetaFault;
pub use laws::{reads_back, reads_consistent, reads_what_is_held};
pub use meta::{FileMeta, MetaChunk, MetaColumn, MetaGroup};
pub use reading::read_meta;
pub use writing::write_meta;
