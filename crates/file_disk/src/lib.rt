//! A folder of files on a disk that can fail and stop, with what a crash may leave of it, and disks in memory.
#![tactic(auto)]

mod disk;
mod entries;
mod fault;
mod mem_disk;
mod mem_file;
mod sure_disk;

pub use disk::{FileDisk, Held};
pub use fault::DiskNo;
pub use mem_disk::MemDisk;
pub use mem_file::{MemDraft, MemFile};
pub use sure_disk::SureDisk;
