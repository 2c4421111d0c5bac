//! The compact protocol of Apache Thrift: fields read exactly, and written in their shortest
//! spelling; and structs of known fields, read into drafts.
//!
//! `specs/Spelling.antt` and `specs/Trees.antt` define which bytes spell which item, after the
//! Thrift compact protocol specification. [`Reader`] finds the item at its place or the first fault
//! there, and [`Writer`] appends shortest spellings.
//!
//! A draft has an optional place for each field that its reader knows. Fields come in any order: of
//! a field that comes again the last one stands, and a field of another id or another type is passed
//! over. [`read_parts`] is the one loop for all structs, and [`Parts`] says what one field adds to a
//! draft.
#![tactic(auto)]

mod fault;
mod fields;
mod headers;
mod kept;
mod laws;
mod parts;
mod reader;
mod scalars;
mod skipping;
mod struct_fault;
pub mod types;
mod writer;

pub use fault::ThriftFault;
pub use fields::{
    next_field, pass_field, read_count, read_int, read_list, read_long, read_long_count, read_text,
};
pub use kept::{StructList, Text};
pub use laws::{faults_stand, none_begins_another, reads_back, says_one};
pub use parts::{Parts, read_parts, read_struct, read_structs};
pub use reader::Reader;
pub use struct_fault::StructFault;
pub use writer::Writer;
