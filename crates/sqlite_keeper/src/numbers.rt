//! Numbers as a database has them: those up to 9,223,372,036,854,775,807.

ghost use Rattle.std.specs.Prelude.{◌≡◌};
ghost use Rattle.std.specs.List.{list_all};
ghost use Rattle.cat_rows.specs.declared.batch.CatRow.TheVariants as cat_row;
ghost use Rattle.sqlite_keeper.specs.Numbers as spec;

use cat_rows::{Batch, CatRow, ColumnRow, DataFileRow, DeleteFileRow, Key, TableStatsRow};

const GREATEST: u64 = 9_223_372_036_854_775_807;

/// The number as a database has it. Only those that it has are asked for.
pub fn int(number: u64) -> i64 {
    i64::try_from(number).unwrap_or(i64::MAX)
}

pub fn may_int(number: Option<u64>) -> Option<i64> {
    match number {
        Some(number) => Some(int(number)),
        None => None,
    }
}

fn is_storable(number: u64) -> bool
    ensures { result ≡ spec.is_storable number }
{
    number <= GREATEST
}

fn all_storable(numbers: &[u64]) -> bool
    ensures { result ≡ list_all spec.is_storable numbers.now }
{
    numbers.iter().all(|number| is_storable(*number))
}

fn or_zero(number: Option<u64>) -> u64
    ensures { result ≡ spec.number_or_zero number }
{
    match number {
        Some(number) => number,
        None => 0,
    }
}

fn key_fits(key: &Key) -> bool
    ensures { result ≡ spec.key_fits key.now }
{
    match key {
        Key::Metadata(_) | Key::ScheduledFile(_) => true,
        Key::Snapshot(a) | Key::SnapshotChanges(a) | Key::Schema(a) | Key::Table(a) => {
            all_storable(&[*a])
        }
        Key::DataFile(a) | Key::DeleteFile(a) | Key::TableStats(a) => all_storable(&[*a]),
        Key::FileColumnStats(a, b) => all_storable(&[*a, *b]),
        Key::Column(a, b, c) | Key::Inlined(a, b, c) => all_storable(&[*a, *b, *c]),
    }
}

fn column_fits(row: &ColumnRow) -> bool
    ensures { result ≡ spec.row_fits (cat_row.Column row.now) }
{
    all_storable(&[
        row.table_id,
        row.column_id,
        row.begin_snapshot,
        or_zero(row.end_snapshot),
        row.column_order,
    ])
}

fn data_file_fits(row: &DataFileRow) -> bool
    ensures { result ≡ spec.row_fits (cat_row.DataFile row.now) }
{
    all_storable(&[
        row.data_file_id,
        row.begin_snapshot,
        or_zero(row.end_snapshot),
        row.table_id,
        row.record_count,
        row.file_size_bytes,
        or_zero(row.row_id_start),
        row.weight,
    ])
}

fn delete_file_fits(row: &DeleteFileRow) -> bool
    ensures { result ≡ spec.row_fits (cat_row.DeleteFile row.now) }
{
    all_storable(&[
        row.delete_file_id,
        row.begin_snapshot,
        or_zero(row.end_snapshot),
        row.table_id,
        row.data_file_id,
        row.delete_count,
        row.file_size_bytes,
    ])
}

fn table_stats_fit(row: &TableStatsRow) -> bool
    ensures { result ≡ spec.row_fits (cat_row.TableStats row.now) }
{
    all_storable(&[
        row.table_id,
        row.record_count,
        row.next_row_id,
        row.next_field_id,
        row.file_size_bytes,
    ])
}

fn row_fits(row: &CatRow) -> bool
    ensures { result ≡ spec.row_fits row.now }
{
    match row {
        CatRow::Metadata(_) | CatRow::ScheduledFile(_) => true,
        CatRow::Snapshot(row) => {
            all_storable(&[row.snapshot_id, row.next_catalog_id, row.next_file_id])
        }
        CatRow::SnapshotChanges(row) => all_storable(&[row.snapshot_id]),
        CatRow::Schema(row) => {
            all_storable(&[row.schema_id, row.begin_snapshot, or_zero(row.end_snapshot)])
        }
        CatRow::Table(row) => all_storable(&[
            row.table_id,
            row.begin_snapshot,
            or_zero(row.end_snapshot),
            row.schema_id,
        ]),
        CatRow::Column(row) => column_fits(row),
        CatRow::DataFile(row) => data_file_fits(row),
        CatRow::DeleteFile(row) => delete_file_fits(row),
        CatRow::FileColumnStats(row) => {
            all_storable(&[row.data_file_id, row.column_id, row.null_count])
        }
        CatRow::TableStats(row) => table_stats_fit(row),
        CatRow::Inlined(row) => all_storable(&[
            row.table_id,
            row.row_id,
            row.begin_snapshot,
            or_zero(row.end_snapshot),
        ]),
    }
}

fn end_fits(end: &(Key, u64)) -> bool
    ensures { result ≡ spec.end_fits end.now }
{
    key_fits(&end.0) && is_storable(end.1)
}

fn all_keys_fit(keys: &[Key]) -> bool
    ensures { result ≡ list_all spec.key_fits keys.now }
{
    keys.iter().all(|key| key_fits(key))
}

fn all_ends_fit(ends: &[(Key, u64)]) -> bool
    ensures { result ≡ list_all spec.end_fits ends.now }
{
    ends.iter().all(|end| end_fits(end))
}

fn all_rows_fit(rows: &[CatRow]) -> bool
    ensures { result ≡ list_all spec.row_fits rows.now }
{
    rows.iter().all(|row| row_fits(row))
}

/// Whether the database has all numbers of the batch.
pub fn batch_fits(batch: &Batch) -> bool
    ensures { result ≡ spec.are_storable batch.now }
{
    all_keys_fit(batch.removes.as_slice())
        && all_ends_fit(batch.ends.as_slice())
        && all_rows_fit(batch.adds.as_slice())
}
