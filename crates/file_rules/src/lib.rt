//! The first bad row of the rules of a sane catalogue about files and statistics: data files and paths (rule 7), delete files
//! (8), the statistics of columns (9) and those of tables (11).
#![tactic(auto)]

mod column_stats_rule;
mod data_file_rule;
mod delete_file_rule;
mod ids;
mod path_rule;
mod table_stats_rule;

pub use column_stats_rule::first_bad_column_stats;
pub use data_file_rule::first_bad_data_file;
pub use delete_file_rule::first_bad_delete_file;
pub use table_stats_rule::first_bad_stats;
