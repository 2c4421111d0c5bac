//! Rows laid by field id: a data file is read into the columns that its table has now. A column that was renamed,
//! moved or promoted finds its cells by its field id, and one that the file never had reads as its initial default.
#![tactic(auto)]

mod fault;
mod laying;

pub use fault::LayFault;
pub use laying::{cells_of, first_fault, lay, place_of, places_of, value_at};
