//! The rows of the catalogue: its twelve tables, and batches of changes that are applied whole.
#![tactic(auto)]

mod applying;
mod batch;
mod cat_table;
mod content;
mod files;
mod fitting;
mod history;
mod inlined;
mod key_order;
pub mod laws;
mod schemas;
mod sweeping;

pub use applying::{apply_batch, apply_reserved, reserve_batch};
pub use batch::{Batch, CatRow, CatRowList, EndList, Key, KeyList};
pub use cat_table::CatTable;
pub use content::CatRows;
pub use files::{DataFileRow, DeleteFileRow, FileColumnStatsRow, ScheduledFileRow, TableStatsRow};
pub use fitting::fits_batch;
pub use history::{MetadataRow, SnapshotChangesRow, SnapshotRow};
pub use inlined::InlinedRow;
pub use schemas::{ColumnRow, SchemaRow, TableRow};
