//! The encodings of values in Apache Parquet pages: definition levels and plain values both ways, dictionary indices read
//! (Apache Parquet format, "Encodings"). What is read may come from strangers: any bytes give values or the first fault.
#![tactic(auto)]

mod bits;
mod bools;
mod fault;
mod fronts;
mod indices;
mod laws;
mod levels;
mod numbers;
mod plain;
mod runs;
mod strings;
mod varint;

pub use fault::EncFault;
pub use fronts::{indices_before_fault, strings_before_fault};
pub use indices::decode_indices;
pub use laws::{reads_as_asked, reads_back, sizes};
pub use levels::encode_levels;
pub use plain::{Physical, Plain, decode_plain, encode_plain};
pub use runs::decode_levels;
pub use strings::{ByteLists, MAX_STRING};
