//! Statistics of a column: how many rows and NULLs there are, and the least and the greatest value. A reader passes
//! over a file by them, so each bound is exact or absent.
#![tactic(auto)]

mod bounds;
pub mod laws;
mod stats;

pub use bounds::bound_text;
pub use stats::{ColStats, count_cells, merge_stats, stats_of};
