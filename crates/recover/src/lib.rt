//! What opening a lake does with a keeper and a disk, before a core is made of them: it gives the catalogue's rows, and
//! the files that these name.
#![tactic(auto)]

mod holding;
pub mod laws;
mod no;
mod opening;

pub use holding::hold_files;
pub use no::OpenNo;
pub use opening::open_rows;
