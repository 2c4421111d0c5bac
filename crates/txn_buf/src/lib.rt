//! What a transaction adds to the version that it sees: each statement is refused, or adds its change to the
//! transaction's own list.
#![tactic(auto)]

mod buffer;
mod columns;
mod create_schema;
mod create_table;
mod drop_schema;
mod drop_table;
mod edits;
mod find;
mod insert;
pub mod laws;
mod no;
mod row;
mod rows;
mod seen;
mod sizes;
mod tally;

pub use buffer::TxnBuf;
pub use no::TxnNo;
pub use sizes::is_sized;
pub use tally::Tally;
