//! How a table's rows stand in a file, which has its cells by columns, and how a file's columns read as rows.
#![tactic(auto)]

mod deletes;
mod ids;
pub mod laws;
mod live;
mod places;
mod rows;
mod sheets;
mod stats;
mod weights;

pub use deletes::deleted_in;
pub use live::{Stated, live_of};
pub use rows::SheetRows;
pub use sheets::{add_cells, empty_column, sheet_of, sheet_with_ids};
pub use stats::column_stats;
pub use weights::sheet_weight;
