use pq_encodings::{Physical, Plain};

/// What a footer says of a column chunk, as far as its pages need it.
#[derive(Clone, Copy, Debug, PartialEq, Eq)]
pub struct ChunkSpec {
    /// The code of the compression. Only 0, no compression, is read.
    pub codec: i32,
    /// The type of the values.
    pub kind: Physical,
    /// Whether cells may be NULL.
    pub optional: bool,
    /// How many cells there are, NULLs among them.
    pub num_values: u64,
    /// Whether each byte string has to be UTF-8.
    pub text: bool,
}

/// The cells of a column chunk.
#[derive(Debug, Drop)]
pub struct RawCells {
    /// Which cells are values. The others are NULL.
    pub defined: Vec<bool>,
    /// The values of those that are.
    pub plain: Plain,
}
