//! The cells of a row as the catalogue keeps them: a row that is inserted inline is one byte string, which spells its
//! cells by rising field id.
#![tactic(auto)]

mod allowed;
mod content;
mod decoding;
mod encoding;
mod fault;
pub mod laws;
mod numbers;

pub use allowed::cells_ok;
pub use decoding::decode_cells;
pub use encoding::encode_cells;
pub use fault::CellsFault;
