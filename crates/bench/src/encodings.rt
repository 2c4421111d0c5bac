//! Columns that are decoded with `pq_encodings`: a small one of each kind, or large ones beside a copy of their values.

mod columns;
mod sums;
mod times;

pub use sums::print_small;
pub use times::print_times;
