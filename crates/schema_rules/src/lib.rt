//! The first bad row of the rules of a sane catalogue about the names of schemas (rule 4), tables (5) and columns (6).
#![tactic(auto)]

mod column_rule;
mod columnless;
mod crowded_columns;
mod defaults;
mod schema_rule;
mod table_rule;

pub use column_rule::first_bad_column;
pub use schema_rule::first_bad_schema;
pub use table_rule::first_bad_table;
