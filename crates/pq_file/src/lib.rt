//! Whole Apache Parquet files: the sheet of columns that a file's bytes hold, and
//! the one file that is written for a sheet (Apache Parquet format, "File Format").
#![tactic(auto)]

mod cells;
mod cuts;
mod fault;
mod frame;
mod groups;
mod holding;
mod laws;
mod limits;
mod parts;
mod ranges;
mod raw;
mod reading;
mod sound;
mod writing;

pub use fault::FileFault;
pub use holding::{reads_named, reads_what_is_held};
pub use laws::reads_back;
pub use limits::is_writable;
pub use reading::{read_columns, read_file};
pub use sound::reads_sound;
pub use writing::write_file;
