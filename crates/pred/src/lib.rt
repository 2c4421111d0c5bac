//! Tests of rows by field ids: a test that names columns is bound to the columns of a table once, or
//! refused with its first fault, and is then tried on rows wherever they lie.
#![tactic(auto)]

mod agreeing;
mod binding;
mod bound;
mod cells;
mod fault;
pub mod laws;
mod testing;

pub use agreeing::agrees;
pub use binding::bind;
pub use bound::{Bound, BoundList};
pub use cells::Cells;
pub use fault::BindNo;
pub use testing::{chooses, test, test_cells};
