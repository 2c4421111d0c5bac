//! What the texts in the catalogue's rows say, both ways: types, the defaults of columns, the bounds of
//! statistics.
#![tactic(auto)]

mod columns;
pub mod laws;
mod reading;
mod stats;
mod types;

pub use columns::{column_row, read_column};
pub use reading::ReadTextNo;
pub use stats::{read_stats, stats_row};
pub use types::{type_of, type_text};
