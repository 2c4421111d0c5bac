//! The twelve tables.

use sqlite::{Alter, Error, Transaction};

/// The texts that make the tables, in the catalogue's order.
const TABLES: [&str; 12] = [
    "CREATE TABLE IF NOT EXISTS ducklake_metadata (
        key TEXT NOT NULL PRIMARY KEY, value TEXT NOT NULL
    ) STRICT",
    "CREATE TABLE IF NOT EXISTS ducklake_snapshot (
        snapshot_id INTEGER PRIMARY KEY, snapshot_time INTEGER NOT NULL,
        next_catalog_id INTEGER NOT NULL, next_file_id INTEGER NOT NULL
    ) STRICT",
    "CREATE TABLE IF NOT EXISTS ducklake_snapshot_changes (
        snapshot_id INTEGER PRIMARY KEY, changes_made TEXT NOT NULL
    ) STRICT",
    "CREATE TABLE IF NOT EXISTS ducklake_schema (
        schema_id INTEGER PRIMARY KEY, begin_snapshot INTEGER NOT NULL, end_snapshot INTEGER,
        schema_name TEXT NOT NULL
    ) STRICT",
    "CREATE TABLE IF NOT EXISTS ducklake_table (
        table_id INTEGER PRIMARY KEY, begin_snapshot INTEGER NOT NULL, end_snapshot INTEGER,
        schema_id INTEGER NOT NULL, table_name TEXT NOT NULL
    ) STRICT",
    "CREATE TABLE IF NOT EXISTS ducklake_column (
        table_id INTEGER NOT NULL, column_id INTEGER NOT NULL, begin_snapshot INTEGER NOT NULL,
        end_snapshot INTEGER, column_order INTEGER NOT NULL, column_name TEXT NOT NULL,
        column_type TEXT NOT NULL, initial_default TEXT, default_value TEXT,
        nulls_allowed INTEGER NOT NULL, PRIMARY KEY (table_id, column_id, begin_snapshot)
    ) STRICT",
    "CREATE TABLE IF NOT EXISTS ducklake_data_file (
        data_file_id INTEGER PRIMARY KEY, begin_snapshot INTEGER NOT NULL, end_snapshot INTEGER,
        table_id INTEGER NOT NULL, path TEXT NOT NULL, record_count INTEGER NOT NULL,
        file_size_bytes INTEGER NOT NULL, row_id_start INTEGER, weight INTEGER NOT NULL
    ) STRICT",
    "CREATE TABLE IF NOT EXISTS ducklake_delete_file (
        delete_file_id INTEGER PRIMARY KEY, begin_snapshot INTEGER NOT NULL,
        end_snapshot INTEGER, table_id INTEGER NOT NULL, data_file_id INTEGER NOT NULL,
        path TEXT NOT NULL, delete_count INTEGER NOT NULL, file_size_bytes INTEGER NOT NULL
    ) STRICT",
    "CREATE TABLE IF NOT EXISTS ducklake_file_column_stats (
        data_file_id INTEGER NOT NULL, column_id INTEGER NOT NULL, null_count INTEGER NOT NULL,
        min_value TEXT, max_value TEXT, PRIMARY KEY (data_file_id, column_id)
    ) STRICT",
    "CREATE TABLE IF NOT EXISTS ducklake_table_stats (
        table_id INTEGER PRIMARY KEY, record_count INTEGER NOT NULL,
        next_row_id INTEGER NOT NULL, next_field_id INTEGER NOT NULL,
        file_size_bytes INTEGER NOT NULL
    ) STRICT",
    "CREATE TABLE IF NOT EXISTS ducklake_inlined_row (
        table_id INTEGER NOT NULL, row_id INTEGER NOT NULL, begin_snapshot INTEGER NOT NULL,
        end_snapshot INTEGER, cells BLOB NOT NULL,
        PRIMARY KEY (table_id, row_id, begin_snapshot)
    ) STRICT",
    "CREATE TABLE IF NOT EXISTS ducklake_scheduled_file (
        path TEXT NOT NULL PRIMARY KEY
    ) STRICT",
];

/// Makes the tables that are missing.
pub fn make_tables<S: Alter>(tx: &mut Transaction<'_, S>) -> Result<(), Error> {
    for text in TABLES.iter() {
        tx.execute(text, &[])?;
    }
    Ok(())
}
