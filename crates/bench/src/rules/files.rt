//! Twenty data files of each table, with the statistics of a column, the statistics of the table, and twenty inlined rows.

use crate::rules::tables::COLUMNS;
use cat_rows::{CatRow, CatRowList, DataFileRow, FileColumnStatsRow, InlinedRow, TableStatsRow};
use lake_types::{Blob, NoMemory, Words};
use std::alloc::Global;

pub const FILES_OF_TABLE: u64 = 20;

const ROWS_OF_FILE: u64 = 10;

const INLINED_OF_TABLE: u64 = 20;

/// One cell: the integer 1 in field 1.
const CELLS: [u8; 4] = [1, 1, 3, 2];

fn data_file(alloc: Global, id: u64, table: u64, place: u64) -> Result<CatRow, NoMemory> {
    Ok(CatRow::DataFile(DataFileRow {
        data_file_id: id,
        begin_snapshot: table,
        end_snapshot: None,
        table_id: table,
        path: Words::from_string(format!(in alloc; "{id}.parquet")?),
        record_count: ROWS_OF_FILE,
        file_size_bytes: 1_000,
        row_id_start: Some(place.saturating_mul(ROWS_OF_FILE)),
        weight: 1_000,
    }))
}

fn column_stats(alloc: Global, file: u64) -> Result<CatRow, NoMemory> {
    Ok(CatRow::FileColumnStats(FileColumnStatsRow {
        data_file_id: file,
        column_id: 1,
        null_count: 0,
        min_value: Some(Words::of(alloc, "-5")?),
        max_value: Some(Words::of(alloc, "1234567")?),
    }))
}

fn table_stats(table: u64) -> CatRow {
    CatRow::TableStats(TableStatsRow {
        table_id: table,
        record_count: 220,
        next_row_id: 220,
        next_field_id: COLUMNS + 1,
        file_size_bytes: 20_000,
    })
}

fn inlined(alloc: Global, table: u64, row: u64) -> Result<CatRow, NoMemory> {
    Ok(CatRow::Inlined(InlinedRow {
        table_id: table,
        row_id: row,
        begin_snapshot: table,
        end_snapshot: None,
        cells: Blob::of(alloc, &CELLS)?,
    }))
}

fn add_data_files(alloc: Global, rows: &mut CatRowList, tables: u64) -> Result<(), NoMemory> {
    let mut id: u64 = 0;
    for table in 1..=tables {
        for place in 0..FILES_OF_TABLE {
            rows.push(data_file(alloc, id, table, place)?)?;
            id = id.saturating_add(1);
        }
    }
    Ok(())
}

pub fn add_files(alloc: Global, rows: &mut CatRowList, tables: u64) -> Result<(), NoMemory> {
    add_data_files(alloc, rows, tables)?;
    for id in 0..tables.saturating_mul(FILES_OF_TABLE) {
        rows.push(column_stats(alloc, id)?)?;
    }
    for id in 1..=tables {
        rows.push(table_stats(id))?;
    }
    for id in 1..=tables {
        for row in 200..200 + INLINED_OF_TABLE {
            rows.push(inlined(alloc, id, row)?)?;
        }
    }
    Ok(())
}
