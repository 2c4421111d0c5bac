//! `first_bad_row` of `cat_sane` over two small catalogues, or over two of near 100,000 rows beside a sort of as many rows:
//! many tables, and one table whose column was altered very often.

mod altered;
mod files;
mod history;
mod tables;
mod times;

use anyhow::Result;
use cat_rows::{Batch, CatRowList, CatRows, apply_batch, fits_batch};
use cat_sane::first_bad_row;
use lake_types::{Listed, NoMemory};
use std::alloc::Global;
pub use times::print_times;

/// The rows of a sane catalogue with so many tables, by table and key.
fn rows_of(alloc: Global, tables: u64) -> Result<CatRowList, NoMemory> {
    let mut rows = Listed::new(alloc);
    history::add_history(alloc, &mut rows, tables)?;
    tables::add_tables(alloc, &mut rows, tables)?;
    files::add_files(alloc, &mut rows, tables)?;
    Ok(rows)
}

/// The catalogue of these rows.
fn catalogue(alloc: Global, adds: CatRowList) -> Result<CatRows, NoMemory> {
    let batch = Batch {
        removes: Listed::new(alloc),
        ends: Listed::new(alloc),
        adds,
    };
    let mut rows = CatRows::empty(alloc);
    if fits_batch(&rows, &batch) {
        apply_batch(alloc, &mut rows, &batch)?;
    }
    Ok(rows)
}

fn print_found(rt: &impl Print, alloc: Global, adds: CatRowList) -> Result<()> {
    let count = adds.len();
    let rows = catalogue(alloc, adds)?;
    match first_bad_row(alloc, &rows)? {
        Some(bad) => println!(rt;
            "rule {} is broken by {} {}",
            bad.rule,
            bad.table.as_str(),
            bad.key.as_str()
        )?,
        None => println!(rt; "no rule is broken by {count} rows")?,
    }
    Ok(())
}

pub fn print_small(rt: &impl Print, alloc: Global) -> Result<()> {
    print_found(rt, alloc, rows_of(alloc, 20)?)?;
    print_found(rt, alloc, altered::altered_rows(alloc, 20)?)
}
