//! The catalogue's rows in a SQL database: twelve tables, and one transaction for each batch.
#![tactic(auto)]

mod adding;
mod changing;
mod ending;
mod keeping;
mod loading;
mod numbers;
mod opening;
mod reading;
mod removing;
mod running;
mod tables;

pub use keeping::SqlKeeper;
pub use opening::{DatabaseKeeper, OpenNo, close_database, open_database};
