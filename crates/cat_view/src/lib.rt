//! What a snapshot of the catalogue sees, as a version of the lake.
#![tactic(auto)]

mod columns;
mod files;
mod groups;
mod held;
mod inlined;
mod live;
mod owners;
mod staged;
mod version;
mod versions;

pub use held::{HeldFile, HeldFiles};
pub use live::{LiveDelete, LiveFile, StatsList, TableHead, TableView};
pub use staged::{Staged, StagedDelete, StagedFile, StagedTable};
pub use version::{Version, View};
pub use versions::version_at;
