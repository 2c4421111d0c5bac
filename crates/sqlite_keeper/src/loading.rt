//! The rows of the tables, read whole.

use crate::reading;
use cat_rows::{
    Batch, CatRow, CatRowList, CatRows, CatTable, apply_reserved, fits_batch, reserve_batch,
};
use lake_types::Listed;
use sqlite::{Alter, Connection, Error, ErrorCode, Row};
use std::alloc::Global;

/// The statement that gives all rows of a table, ordered by its key.
fn text_of(table: CatTable) -> &'static str {
    match table {
        CatTable::Metadata => "SELECT key, value FROM ducklake_metadata ORDER BY key",
        CatTable::Snapshot => "SELECT snapshot_id, snapshot_time, next_catalog_id, next_file_id
                FROM ducklake_snapshot ORDER BY snapshot_id",
        CatTable::SnapshotChanges =>
            "SELECT snapshot_id, changes_made FROM ducklake_snapshot_changes ORDER BY snapshot_id",
        CatTable::Schema => "SELECT schema_id, begin_snapshot, end_snapshot, schema_name
                FROM ducklake_schema ORDER BY schema_id",
        CatTable::Table => "SELECT table_id, begin_snapshot, end_snapshot, schema_id, table_name
                FROM ducklake_table ORDER BY table_id",
        CatTable::Column =>
            "SELECT table_id, column_id, begin_snapshot, end_snapshot, column_order, column_name,
                column_type, initial_default, default_value, nulls_allowed
                FROM ducklake_column ORDER BY table_id, column_id, begin_snapshot",
        CatTable::DataFile =>
            "SELECT data_file_id, begin_snapshot, end_snapshot, table_id, path, record_count,
                file_size_bytes, row_id_start, weight
                FROM ducklake_data_file ORDER BY data_file_id",
        CatTable::DeleteFile =>
            "SELECT delete_file_id, begin_snapshot, end_snapshot, table_id, data_file_id, path,
                delete_count, file_size_bytes
                FROM ducklake_delete_file ORDER BY delete_file_id",
        CatTable::FileColumnStats =>
            "SELECT data_file_id, column_id, null_count, min_value, max_value
                FROM ducklake_file_column_stats ORDER BY data_file_id, column_id",
        CatTable::TableStats =>
            "SELECT table_id, record_count, next_row_id, next_field_id, file_size_bytes
                FROM ducklake_table_stats ORDER BY table_id",
        CatTable::Inlined => "SELECT table_id, row_id, begin_snapshot, end_snapshot, cells
                FROM ducklake_inlined_row ORDER BY table_id, row_id, begin_snapshot",
        CatTable::ScheduledFile => "SELECT path FROM ducklake_scheduled_file ORDER BY path",
    }
}

fn row_of(table: CatTable, row: &Row) -> Result<CatRow, Error> {
    match table {
        CatTable::Metadata => reading::metadata(row),
        CatTable::Snapshot => reading::snapshot(row),
        CatTable::SnapshotChanges => reading::snapshot_changes(row),
        CatTable::Schema => reading::schema(row),
        CatTable::Table => reading::table(row),
        CatTable::Column => reading::column(row),
        CatTable::DataFile => reading::data_file(row),
        CatTable::DeleteFile => reading::delete_file(row),
        CatTable::FileColumnStats => reading::file_column_stats(row),
        CatTable::TableStats => reading::table_stats(row),
        CatTable::Inlined => reading::inlined_row(row),
        CatTable::ScheduledFile => reading::scheduled_file(row),
    }
}

fn load_table<S: Alter>(
    conn: &mut Connection<S>,
    table: CatTable,
    rows: &mut CatRowList,
) -> Result<(), Error> {
    let mut found = conn.query(text_of(table), &[])?;
    for _ in 0..u64::MAX {
        match found.next()? {
            Some(row) => rows.push(row_of(table, row)?)?,
            None => return Ok(()),
        }
    }
    Ok(())
}

/// The order of the catalogue.
const ORDER: [CatTable; 12] = [
    CatTable::Metadata,
    CatTable::Snapshot,
    CatTable::SnapshotChanges,
    CatTable::Schema,
    CatTable::Table,
    CatTable::Column,
    CatTable::DataFile,
    CatTable::DeleteFile,
    CatTable::FileColumnStats,
    CatTable::TableStats,
    CatTable::Inlined,
    CatTable::ScheduledFile,
];

/// All rows of the tables. Rows that are no content, as two of one key, are damage.
pub fn load_rows<S: Alter>(conn: &mut Connection<S>, alloc: Global) -> Result<CatRows, Error> {
    let mut adds = Listed::new(alloc);
    for table in ORDER.iter() {
        load_table(conn, *table, &mut adds)?;
    }
    let batch = Batch {
        removes: Listed::new(alloc),
        ends: Listed::new(alloc),
        adds,
    };
    let mut rows = CatRows::empty(alloc);
    if !fits_batch(&rows, &batch) {
        return Err(Error::SqliteFailure(ErrorCode::DatabaseCorrupt));
    }
    reserve_batch(&mut rows, &batch)?;
    apply_reserved(&mut rows, batch);
    Ok(rows)
}
