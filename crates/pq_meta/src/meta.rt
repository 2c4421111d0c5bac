use lake_types::{ColType, Listed, Words};

/// What a footer says of its file.
#[derive(Debug, Drop)]
pub struct FileMeta {
    /// The columns, in order.
    pub columns: Listed<MetaColumn>,
    /// How many rows the file has.
    pub num_rows: u64,
    /// The groups of rows, in order.
    pub groups: Listed<MetaGroup>,
}

/// A column of a file.
#[derive(Debug, Drop)]
pub struct MetaColumn {
    pub name: Words,
    /// The field id that the column is known by, if any. No earlier column has it.
    pub field: Option<u32>,
    pub ty: ColType,
    /// Whether a cell may be NULL.
    pub optional: bool,
}

/// Some rows of a file, column by column.
#[derive(Debug, Drop)]
pub struct MetaGroup {
    /// How many rows the group has.
    pub rows: u64,
    /// A chunk for each column, in order.
    pub chunks: Listed<MetaChunk>,
}

/// The values of one column in one group.
#[derive(Clone, Copy, Debug, PartialEq, Eq)]
pub struct MetaChunk {
    /// How the pages are compressed: 0 where they are not.
    pub codec: i32,
    /// How many values there are, NULLs among them.
    pub num_values: u64,
    /// The offset of the first byte in the file.
    pub first: u64,
    /// How many bytes there are.
    pub length: u64,
}
