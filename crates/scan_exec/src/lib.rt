//! The rows of a table that a transaction sees, its own changes in effect, for which a test is true.
#![tactic(auto)]

mod aim;
mod choice;
mod fault;
mod files;
mod finding;
mod old;
mod order;
mod own;
mod place;
mod rows;
mod scanned;
mod scanning;
mod telling;

pub use fault::ScanFault;
pub use scanned::Scan;
pub use scanning::scan;
