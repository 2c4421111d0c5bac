//! The tables of a catalogue, whatever their rows: rows that rise by a key, each key once, and rows that are
//! valid from one snapshot until another.
#![tactic(auto)]

mod interval;
mod keyed;
mod keyed_table;
pub mod laws;
mod versioned;

pub use interval::{Interval, is_before};
pub use keyed::Keyed;
pub use keyed_table::{KeyedTable, find_row};
pub use versioned::Versioned;
