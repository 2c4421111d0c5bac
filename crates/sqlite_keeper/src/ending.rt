//! A statement for each row that ends.

use crate::numbers::int;
use crate::running::change_one;
use cat_rows::Key;
use sqlite::{Alter, Error, Transaction, params};

fn by_id<S: Alter>(
    tx: &mut Transaction<'_, S>,
    text: &str,
    end: u64,
    id: u64,
) -> Result<(), Error> {
    change_one(tx, text, params![int(end), int(id)])
}

fn by_three<S: Alter>(
    tx: &mut Transaction<'_, S>,
    text: &str,
    end: u64,
    a: u64,
    b: u64,
    c: u64,
) -> Result<(), Error> {
    change_one(tx, text, params![int(end), int(a), int(b), int(c)])
}

/// Ends the row of a key that hasn't ended. A row of a table without ends can't.
pub fn end_row<S: Alter>(tx: &mut Transaction<'_, S>, key: &Key, end: u64) -> Result<(), Error> {
    match key {
        Key::Schema(id) => by_id(
            tx,
            "UPDATE ducklake_schema SET end_snapshot = ?1
            WHERE schema_id = ?2 AND end_snapshot IS NULL",
            end,
            *id,
        ),
        Key::Table(id) => by_id(
            tx,
            "UPDATE ducklake_table SET end_snapshot = ?1
            WHERE table_id = ?2 AND end_snapshot IS NULL",
            end,
            *id,
        ),
        Key::Column(table, column, begin) => by_three(
            tx,
            "UPDATE ducklake_column SET end_snapshot = ?1
            WHERE table_id = ?2 AND column_id = ?3 AND begin_snapshot = ?4
            AND end_snapshot IS NULL",
            end,
            *table,
            *column,
            *begin,
        ),
        Key::DataFile(id) => by_id(
            tx,
            "UPDATE ducklake_data_file SET end_snapshot = ?1
            WHERE data_file_id = ?2 AND end_snapshot IS NULL",
            end,
            *id,
        ),
        Key::DeleteFile(id) => by_id(
            tx,
            "UPDATE ducklake_delete_file SET end_snapshot = ?1
            WHERE delete_file_id = ?2 AND end_snapshot IS NULL",
            end,
            *id,
        ),
        Key::Inlined(table, row, begin) => by_three(
            tx,
            "UPDATE ducklake_inlined_row SET end_snapshot = ?1
            WHERE table_id = ?2 AND row_id = ?3 AND begin_snapshot = ?4
            AND end_snapshot IS NULL",
            end,
            *table,
            *row,
            *begin,
        ),
        Key::Metadata(..)
        | Key::Snapshot(..)
        | Key::SnapshotChanges(..)
        | Key::FileColumnStats(..)
        | Key::TableStats(..)
        | Key::ScheduledFile(..) => Err(Error::QueryReturnedNoRows),
    }
}
