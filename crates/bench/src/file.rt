//! A sheet of (BIGINT, VARCHAR of 12 bytes, DATE) that is written with `pq_file` and read again, of a few rows or of a million.

mod rows;
mod steps;
mod times;

use anyhow::Result;
use std::alloc::Global;
use std::rt::Clock;

const FEW: u32 = 20_000;

const MANY: u32 = 1_000_000;

/// Prints how many rows and bytes there are.
pub fn print_small(rt: &impl Print, alloc: Global) -> Result<()> {
    steps::print_sizes(rt, alloc, FEW)
}

/// With `time` prints how long many rows take beside a copy of the file's bytes. With `sheet`, `write` or `read` it goes so far
/// and ends, for a measure of memory.
pub fn print_many(rt: &(impl Print + Clock), alloc: Global, how: &str) -> Result<()> {
    match how {
        "time" => times::print_times(rt, alloc, MANY),
        "sheet" => steps::only_make(rt, alloc, MANY),
        "write" => steps::only_write(rt, alloc, MANY),
        _ => steps::print_sizes(rt, alloc, MANY),
    }
}
