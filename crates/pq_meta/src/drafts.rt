//! What is read of a footer's structs, field by field.

use thrift_compact::{StructList, Text};

/// What is read of the footer.
#[derive(Drop)]
pub struct FooterDraft<'a> {
    pub version: Option<i32>,
    pub schema: Option<StructList<ElementDraft<'a>>>,
    pub num_rows: Option<u64>,
    pub groups: Option<StructList<GroupDraft>>,
}

/// What is read of an element of the schema.
#[derive(Drop)]
pub struct ElementDraft<'a> {
    pub physical: Option<i32>,
    pub repetition: Option<i32>,
    pub name: Option<Text<'a>>,
    pub num_children: Option<u32>,
    pub converted: Option<i32>,
    pub field: Option<i32>,
    pub logical: Option<LogicalDraft>,
}

/// What is read of a logical type: the last of its members.
#[derive(Clone, Copy)]
pub struct LogicalDraft {
    pub member: Option<Member>,
}

/// A member of a logical type.
#[derive(Clone, Copy)]
pub enum Member {
    Text,
    Date,
    Integer(IntegerDraft),
    /// One that is not known.
    Other,
}

/// What is read of the logical type of whole numbers.
#[derive(Clone, Copy)]
pub struct IntegerDraft {
    pub bit_width: Option<i8>,
    pub signed: Option<bool>,
}

/// What is read of a group of rows.
#[derive(Drop)]
pub struct GroupDraft {
    pub chunks: Option<StructList<ChunkDraft>>,
    pub rows: Option<u64>,
}

/// What is read of a chunk.
#[derive(Clone, Copy)]
pub struct ChunkDraft {
    pub meta: Option<ChunkMetaDraft>,
}

/// What is read of a chunk's metadata.
#[derive(Clone, Copy)]
pub struct ChunkMetaDraft {
    pub physical: Option<i32>,
    pub codec: Option<i32>,
    pub num_values: Option<u64>,
    pub length: Option<u64>,
    pub data_page: Option<u64>,
    pub dictionary_page: Option<i64>,
}
