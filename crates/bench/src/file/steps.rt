//! One way from a sheet to a file and back.

use crate::file::rows::sheet_of;
use anyhow::Result;
use lake_types::{NoMemory, Sheet};
use pq_file::{is_writable, read_file, write_file};
use std::alloc::Global;

/// The file of a sheet; of one that can't be written no bytes.
pub fn file_of(alloc: Global, sheet: &Sheet) -> Result<Vec<u8>, NoMemory> {
    if !is_writable(sheet) {
        return Ok(Vec::new(alloc));
    }
    write_file(alloc, sheet)
}

/// Makes a sheet.
pub fn only_make(rt: &impl Print, alloc: Global, rows: u32) -> Result<()> {
    let sheet = sheet_of(alloc, rows)?;
    println!(rt; "{} rows", sheet.rows)?;
    Ok(())
}

/// Makes a sheet and writes it.
pub fn only_write(rt: &impl Print, alloc: Global, rows: u32) -> Result<()> {
    let sheet = sheet_of(alloc, rows)?;
    let file = file_of(alloc, &sheet)?;
    println!(rt; "{} rows, {} bytes", sheet.rows, file.len())?;
    Ok(())
}

fn written(alloc: Global, rows: u32) -> Result<Vec<u8>, NoMemory> {
    file_of(alloc, &sheet_of(alloc, rows)?)
}

/// Makes a sheet, writes it, lets it go, and reads the file.
pub fn print_sizes(rt: &impl Print, alloc: Global, rows: u32) -> Result<()> {
    let file = written(alloc, rows)?;
    let sheet = read_file(alloc, &file)?;
    println!(rt; "{} rows, {} bytes", sheet.rows, file.len())?;
    Ok(())
}
