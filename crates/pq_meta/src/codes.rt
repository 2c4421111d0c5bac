//! Codes of the footer's fields (Apache Parquet format, "Types", "Logical Types", and the definitions in
//! `parquet.thrift`).

/// Physical types.
pub const BOOLEAN: i32 = 0;

pub const INT32: i32 = 1;

pub const INT64: i32 = 2;

pub const BYTE_ARRAY: i32 = 6;

/// Repetitions.
pub const REQUIRED: i32 = 0;

pub const OPTIONAL: i32 = 1;

/// Converted types.
pub const UTF8: i32 = 0;

pub const DATE: i32 = 6;

pub const INT_8: i32 = 15;

pub const INT_16: i32 = 16;

pub const INT_32: i32 = 17;

pub const INT_64: i32 = 18;
