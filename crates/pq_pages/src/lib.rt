//! Column chunks of Apache Parquet files, both ways: [`read_chunk`], and [`write_chunk`] or [`push_chunk`].
//!
//! What is read may come from strangers: any bytes give cells or the first fault in reading order. `specs/Headers.antt`
//! says what a page's header says, `specs/Holding.antt` which cells a chunk holds, `specs/Pages.antt` these cells or the
//! first fault, and `specs/Writing.antt` which bytes are written for cells.
#![tactic(auto)]

mod chunk;
mod column;
mod drafts;
mod fault;
mod headers;
mod laws;
mod levels;
mod pages;
mod picks;
mod reading;
mod texts;
mod values;
mod writing;

pub use chunk::{ChunkSpec, RawCells};
pub use fault::PageFault;
pub use laws::{body_size, reads_as_said, reads_back, reads_what_is_held};
pub use reading::read_chunk;
pub use writing::{push_chunk, write_chunk};
