//! The layout, and a snapshot for each table that was made, with its changes text.

use crate::rules::files::FILES_OF_TABLE;
use cat_rows::{CatRow, CatRowList, MetadataRow, SnapshotChangesRow, SnapshotRow};
use lake_types::{NoMemory, Words};
use std::alloc::Global;

pub fn snapshot(id: u64, next_catalog_id: u64, next_file_id: u64) -> CatRow {
    CatRow::Snapshot(SnapshotRow {
        snapshot_id: id,
        snapshot_time: 0,
        next_catalog_id,
        next_file_id,
    })
}

pub fn changes(id: u64, text: Words) -> CatRow {
    CatRow::SnapshotChanges(SnapshotChangesRow {
        snapshot_id: id,
        changes_made: text,
    })
}

pub fn layout(alloc: Global) -> Result<CatRow, NoMemory> {
    Ok(CatRow::Metadata(MetadataRow {
        key: Words::of(alloc, "layout")?,
        value: Words::of(alloc, "1")?,
    }))
}

pub fn add_history(alloc: Global, rows: &mut CatRowList, tables: u64) -> Result<(), NoMemory> {
    rows.push(layout(alloc)?)?;
    let next_catalog_id = tables.saturating_add(1);
    let next_file_id = tables.saturating_mul(FILES_OF_TABLE);
    for id in 0..=tables {
        rows.push(snapshot(id, next_catalog_id, next_file_id))?;
    }
    rows.push(changes(0, Words::of(alloc, "created_schema:\"main\"")?))?;
    for id in 1..=tables {
        let text = format!(in alloc; "created_table:\"main\".\"t{id}\"")?;
        rows.push(changes(id, Words::from_string(text)))?;
    }
    Ok(())
}
