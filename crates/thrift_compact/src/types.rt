//! The types of values, as the compact protocol numbers them ("Struct encoding" and "List and
//! Set").

/// A boolean field whose value is true. In a list, a set or a map it stands for booleans of either
/// value.
pub const TRUE: u8 = 1;
/// A boolean field whose value is false. In a list, a set or a map it stands for booleans of either
/// value.
pub const FALSE: u8 = 2;
/// A signed byte.
pub const BYTE: u8 = 3;
/// A signed number of 16 bits.
pub const I16: u8 = 4;
/// A signed number of 32 bits.
pub const I32: u8 = 5;
/// A signed number of 64 bits.
pub const I64: u8 = 6;
/// A floating-point number, in eight bytes.
pub const DOUBLE: u8 = 7;
/// A string of bytes or a text.
pub const BINARY: u8 = 8;
/// A list of elements of one type.
pub const LIST: u8 = 9;
/// A set of elements of one type, spelled like a list.
pub const SET: u8 = 10;
/// A map from keys of one type to values of one type.
pub const MAP: u8 = 11;
/// A struct, of fields up to a stop.
pub const STRUCT: u8 = 12;
