//! The limits of the lake, each under the one name that contracts and code cite.

/// The most sessions. They are numbered from 1.
pub const MAX_SESSIONS: u8 = 16;

/// The most bytes of a script.
pub const MAX_SCRIPT_BYTES: u64 = 67_108_864;

/// The most bytes of a line, without its line feed and the carriage return before it.
pub const MAX_LINE_BYTES: usize = 1_048_576;

/// The most bytes of a name, and of a word in a line.
pub const MAX_NAME_BYTES: usize = 255;

/// The most parentheses and NOTs inside one another in a statement.
pub const MAX_NESTING: usize = 64;

/// The most columns of a table.
pub const MAX_COLUMNS: usize = 100;

/// The largest id of a column.
pub const MAX_FIELD: u32 = 2_147_483_647;

/// The most bytes of a text or of bytes in a cell.
pub const MAX_CELL_BYTES: usize = 16_777_216;

/// The most bytes of a text or of bytes in a default.
pub const MAX_DEFAULT_BYTES: usize = 1_048_576;

/// The most that the rows which one transaction makes may weigh.
pub const MAX_TXN_WEIGHT: u64 = 67_108_864;

/// The most that the cells of one row may weigh.
pub const MAX_ROW_WEIGHT: u64 = 67_108_864;

/// The most rows of a file.
pub const MAX_FILE_ROWS: u64 = 4_194_304;

/// The most bytes of a file's name.
pub const MAX_PATH_BYTES: usize = 200;

/// The most bytes of the text of a least or greatest value in a file's statistics.
pub const MAX_BOUND_BYTES: usize = 64;

/// The most rows of one table that one snapshot may begin in the catalogue itself.
pub const MAX_INLINED_ROWS: u64 = 1_000;

/// The last value of a counter of the catalogue, and of a number in a statement: 2 to the 62.
pub const MAX_COUNTER: u64 = 4_611_686_018_427_387_904;
