use thiserror::Error;

/// Why there is no item at a place. `at` is the offset of the item's first byte.
///
/// The item is the innermost one: a header with all that it holds, a number, or a byte string with
/// its length.
#[derive(Clone, Copy, Debug, PartialEq, Eq, Error)]
pub enum ThriftFault {
    /// The bytes end inside the item.
    #[error("the bytes end inside the item at {at}")]
    Short { at: u64 },
    /// A type past 12, or 0 in a place of a value.
    #[error("no value at {at} has the type {ty}")]
    BadType { at: u64, ty: u8 },
    /// More than 16 structs, lists, sets and maps inside one another.
    #[error("the value at {at} is nested too deeply")]
    TooDeep { at: u64 },
    /// A number that does not fit its type, or takes more than ten bytes.
    #[error("the number at {at} is too wide")]
    TooWide { at: u64 },
}
