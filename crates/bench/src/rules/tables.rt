//! The schema, its tables, and ten columns of each table.

use cat_rows::{CatRow, CatRowList, ColumnRow, SchemaRow, TableRow};
use lake_types::{NoMemory, Words};
use std::alloc::Global;

/// Columns of a table.
pub const COLUMNS: u64 = 10;

pub fn table(alloc: Global, id: u64) -> Result<CatRow, NoMemory> {
    Ok(CatRow::Table(TableRow {
        table_id: id,
        begin_snapshot: id,
        end_snapshot: None,
        schema_id: 0,
        table_name: Words::from_string(format!(in alloc; "t{id}")?),
    }))
}

fn column(alloc: Global, table: u64, id: u64) -> Result<CatRow, NoMemory> {
    Ok(CatRow::Column(ColumnRow {
        table_id: table,
        column_id: id,
        begin_snapshot: table,
        end_snapshot: None,
        column_order: id,
        column_name: Words::from_string(format!(in alloc; "c{id}")?),
        column_type: Words::of(alloc, "int64")?,
        initial_default: None,
        default_value: None,
        nulls_allowed: true,
    }))
}

pub fn main_schema(alloc: Global) -> Result<CatRow, NoMemory> {
    Ok(CatRow::Schema(SchemaRow {
        schema_id: 0,
        begin_snapshot: 0,
        end_snapshot: None,
        schema_name: Words::of(alloc, "main")?,
    }))
}

pub fn add_tables(alloc: Global, rows: &mut CatRowList, tables: u64) -> Result<(), NoMemory> {
    rows.push(main_schema(alloc)?)?;
    for id in 1..=tables {
        rows.push(table(alloc, id)?)?;
    }
    for id in 1..=tables {
        for place in 1..=COLUMNS {
            rows.push(column(alloc, id, place)?)?;
        }
    }
    Ok(())
}
