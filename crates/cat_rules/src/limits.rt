/// The last value of a counter of ids, rows or bytes.
pub const MAX_COUNTER: u64 = 1 << 62;

/// The last value of a counter of field ids.
pub const MAX_FIELD_ID: u64 = 2_147_483_647;
