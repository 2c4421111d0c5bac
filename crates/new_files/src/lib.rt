//! Files under new names: the names of data and delete files, and a file that is written whole under one.
#![tactic(auto)]

mod fault;
pub mod laws;
mod names;
mod writing;

pub use fault::NewFileNo;
pub use names::{file_name, own_form};
pub use writing::{write_as, write_new};
