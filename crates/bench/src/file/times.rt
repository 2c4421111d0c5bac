//! A large sheet, timed beside a copy of its file's bytes into a new Vec. Each step is timed once, and what it makes is
//! kept, so that each has new memory.

use crate::file::rows::sheet_of;
use crate::times::nanos_since;
use anyhow::Result;
use pq_file::{is_writable, read_file, write_file};
use std::alloc::Global;
use std::rt::Clock;
use std::time::Instant;

/// Times a copy of a file's bytes and the reading of the file.
fn print_reading(rt: &(impl Print + Clock), alloc: Global, file: &[u8]) -> Result<()> {
    let start = Instant::now(rt)?;
    let copy = Vec::from_slice(alloc, file)?;
    println!(rt; "copy {}", nanos_since(rt, &start)? / 1_000)?;
    let start = Instant::now(rt)?;
    let sheet = read_file(alloc, &copy)?;
    println!(rt; "reading {}", nanos_since(rt, &start)? / 1_000)?;
    println!(rt; "{} rows, {} bytes", sheet.rows, copy.len())?;
    Ok(())
}

/// Prints the microseconds of writing so many rows, of a copy of the file and of reading it.
pub fn print_times(rt: &(impl Print + Clock), alloc: Global, rows: u32) -> Result<()> {
    let sheet = sheet_of(alloc, rows)?;
    if !is_writable(&sheet) {
        return Ok(());
    }
    let start = Instant::now(rt)?;
    let file = write_file(alloc, &sheet)?;
    println!(rt; "writing {}", nanos_since(rt, &start)? / 1_000)?;
    print_reading(rt, alloc, &file)
}
