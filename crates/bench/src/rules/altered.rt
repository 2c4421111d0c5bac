//! One table of one column that is altered at each later snapshot, and rows in the catalogue itself that begin at each.

use crate::rules::history::{changes, layout, snapshot};
use crate::rules::tables::{main_schema, table};
use cat_rows::{CatRow, CatRowList, ColumnRow, InlinedRow, TableStatsRow};
use lake_types::{Blob, Listed, NoMemory, Words};
use std::alloc::Global;

const TABLE: u64 = 1;

const ROWS_OF_SNAPSHOT: u64 = 3;

/// One cell: the integer 1 in field 1.
const CELLS: [u8; 4] = [1, 1, 3, 2];

/// A column's row that is valid at one snapshot, or from the newest on.
fn column(alloc: Global, begin: u64, newest: u64) -> Result<CatRow, NoMemory> {
    let end_snapshot = if begin < newest {
        Some(begin.saturating_add(1))
    } else {
        None
    };
    Ok(CatRow::Column(ColumnRow {
        table_id: TABLE,
        column_id: 1,
        begin_snapshot: begin,
        end_snapshot,
        column_order: 1,
        column_name: Words::from_string(format!(in alloc; "c{begin}")?),
        column_type: Words::of(alloc, "int64")?,
        initial_default: None,
        default_value: None,
        nulls_allowed: true,
    }))
}

fn inlined(alloc: Global, row: u64, begin: u64) -> Result<CatRow, NoMemory> {
    Ok(CatRow::Inlined(InlinedRow {
        table_id: TABLE,
        row_id: row,
        begin_snapshot: begin,
        end_snapshot: None,
        cells: Blob::of(alloc, &CELLS)?,
    }))
}

fn stats(newest: u64) -> CatRow {
    CatRow::TableStats(TableStatsRow {
        table_id: TABLE,
        record_count: newest.saturating_mul(ROWS_OF_SNAPSHOT),
        next_row_id: newest.saturating_mul(ROWS_OF_SNAPSHOT),
        next_field_id: 2,
        file_size_bytes: 0,
    })
}

fn add_history(alloc: Global, rows: &mut CatRowList, newest: u64) -> Result<(), NoMemory> {
    rows.push(layout(alloc)?)?;
    for id in 0..=newest {
        rows.push(snapshot(id, TABLE + 1, 0))?;
    }
    rows.push(changes(0, Words::of(alloc, "created_schema:\"main\"")?))?;
    rows.push(changes(TABLE, Words::of(alloc, "created_table:\"main\".\"t1\"")?))?;
    for id in TABLE + 1..=newest {
        rows.push(changes(id, Words::of(alloc, "altered_table:1")?))?;
    }
    Ok(())
}

fn add_inlined(alloc: Global, rows: &mut CatRowList, newest: u64) -> Result<(), NoMemory> {
    let mut row: u64 = 0;
    for begin in TABLE..=newest {
        for _ in 0..ROWS_OF_SNAPSHOT {
            rows.push(inlined(alloc, row, begin)?)?;
            row = row.saturating_add(1);
        }
    }
    Ok(())
}

/// The rows of such a catalogue up to a newest snapshot, by table and key.
pub fn altered_rows(alloc: Global, newest: u64) -> Result<CatRowList, NoMemory> {
    let mut rows = Listed::new(alloc);
    add_history(alloc, &mut rows, newest)?;
    rows.push(main_schema(alloc)?)?;
    rows.push(table(alloc, TABLE)?)?;
    for begin in TABLE..=newest {
        rows.push(column(alloc, begin, newest)?)?;
    }
    rows.push(stats(newest))?;
    add_inlined(alloc, &mut rows, newest)?;
    Ok(rows)
}
