//! The limits of a footer that the lake's limits do not name.

/// The most columns of a file: those of a table, and one of row ids.
pub const MAX_FILE_COLUMNS: usize = 101;
