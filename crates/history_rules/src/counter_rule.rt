ghost use Rattle.std.specs.Prelude.{◌≡◌, ◌||◌};
ghost use Rattle.cat_rows.specs.Batches.{tables_of};
ghost use Rattle.cat_rules.specs.CounterRule.{IsIdBad, IsTooLarge, is_not_past};
ghost use Rattle.cat_rules.specs.First.{FirstBad};
ghost use Rattle.cat_rules.specs.Places as places;

use cat_rows::{
    CatRows, ColumnRow, DataFileRow, DeleteFileRow, FileColumnStatsRow, InlinedRow, Key, SchemaRow,
    SnapshotRow, TableRow, TableStatsRow,
};
use cat_rules::{MAX_COUNTER, RowRule, first_bad, newest_of, sooner};

/// A row is bad with an id that the newest snapshot's counter isn't past.
#[derive(Drop)]
struct PastCounter<'a> {
    newest: &'a SnapshotRow,
}

impl RowRule<SchemaRow> for PastCounter<'_> {
    ghost is_bad = { λ rule r. is_not_past rule.newest.now.next_catalog_id r.schema_id };

    ghost name = { places.of_schema };

    fn judge(&self, row: &SchemaRow) -> Option<Key> {
        if row.schema_id >= self.newest.next_catalog_id {
            Some(Key::Schema(row.schema_id))
        } else {
            None
        }
    }
}

impl RowRule<TableRow> for PastCounter<'_> {
    ghost is_bad = { λ rule r.
        is_not_past rule.newest.now.next_catalog_id r.table_id
        || is_not_past rule.newest.now.next_catalog_id r.schema_id };

    ghost name = { places.of_table };

    fn judge(&self, row: &TableRow) -> Option<Key> {
        if row.table_id >= self.newest.next_catalog_id
            || row.schema_id >= self.newest.next_catalog_id
        {
            Some(Key::Table(row.table_id))
        } else {
            None
        }
    }
}

impl RowRule<ColumnRow> for PastCounter<'_> {
    ghost is_bad = { λ rule r. is_not_past rule.newest.now.next_catalog_id r.table_id };

    ghost name = { places.of_column };

    fn judge(&self, row: &ColumnRow) -> Option<Key> {
        if row.table_id >= self.newest.next_catalog_id {
            Some(Key::Column(row.table_id, row.column_id, row.begin_snapshot))
        } else {
            None
        }
    }
}

impl RowRule<DataFileRow> for PastCounter<'_> {
    ghost is_bad = { λ rule r.
        is_not_past rule.newest.now.next_file_id r.data_file_id
        || is_not_past rule.newest.now.next_catalog_id r.table_id };

    ghost name = { places.of_data_file };

    fn judge(&self, row: &DataFileRow) -> Option<Key> {
        if row.data_file_id >= self.newest.next_file_id
            || row.table_id >= self.newest.next_catalog_id
        {
            Some(Key::DataFile(row.data_file_id))
        } else {
            None
        }
    }
}

impl RowRule<DeleteFileRow> for PastCounter<'_> {
    ghost is_bad = { λ rule r.
        is_not_past rule.newest.now.next_file_id r.delete_file_id
        || (is_not_past rule.newest.now.next_file_id r.data_file_id
        || is_not_past rule.newest.now.next_catalog_id r.table_id) };

    ghost name = { places.of_delete_file };

    fn judge(&self, row: &DeleteFileRow) -> Option<Key> {
        if row.delete_file_id >= self.newest.next_file_id
            || row.data_file_id >= self.newest.next_file_id
            || row.table_id >= self.newest.next_catalog_id
        {
            Some(Key::DeleteFile(row.delete_file_id))
        } else {
            None
        }
    }
}

impl RowRule<FileColumnStatsRow> for PastCounter<'_> {
    ghost is_bad = { λ rule r. is_not_past rule.newest.now.next_file_id r.data_file_id };

    ghost name = { places.of_column_stats };

    fn judge(&self, row: &FileColumnStatsRow) -> Option<Key> {
        if row.data_file_id >= self.newest.next_file_id {
            Some(Key::FileColumnStats(row.data_file_id, row.column_id))
        } else {
            None
        }
    }
}

impl RowRule<TableStatsRow> for PastCounter<'_> {
    ghost is_bad = { λ rule r. is_not_past rule.newest.now.next_catalog_id r.table_id };

    ghost name = { places.of_table_stats };

    fn judge(&self, row: &TableStatsRow) -> Option<Key> {
        if row.table_id >= self.newest.next_catalog_id {
            Some(Key::TableStats(row.table_id))
        } else {
            None
        }
    }
}

impl RowRule<InlinedRow> for PastCounter<'_> {
    ghost is_bad = { λ rule r. is_not_past rule.newest.now.next_catalog_id r.table_id };

    ghost name = { places.of_inlined };

    fn judge(&self, row: &InlinedRow) -> Option<Key> {
        if row.table_id >= self.newest.next_catalog_id {
            Some(Key::Inlined(row.table_id, row.row_id, row.begin_snapshot))
        } else {
            None
        }
    }
}

/// The newest snapshot itself, where a counter is past its last value.
fn large_counter(newest: &SnapshotRow) -> Option<Key>
    ensures { FirstBad (IsTooLarge newest.now) result }
{
    if newest.next_catalog_id > MAX_COUNTER || newest.next_file_id > MAX_COUNTER {
        Some(Key::Snapshot(newest.snapshot_id))
    } else {
        None
    }
}

/// The first bad row of the rule about ids: both counters of the newest snapshot are past each id of their
/// sort, in any row, and at most the last value.
pub fn first_bad_id(rows: &CatRows) -> Option<Key>
    ensures { FirstBad (IsIdBad (tables_of rows.now)) result }
{
    let newest = newest_of(rows.snapshot())?;
    let rule = PastCounter { newest };
    let own = large_counter(newest);
    let schema = first_bad(&rule, rows.schema());
    let table = first_bad(&rule, rows.table());
    let column = first_bad(&rule, rows.column());
    let data_file = first_bad(&rule, rows.data_file());
    let delete_file = first_bad(&rule, rows.delete_file());
    let column_stats = first_bad(&rule, rows.file_column_stats());
    let table_stats = first_bad(&rule, rows.table_stats());
    let inlined = first_bad(&rule, rows.inlined_row());
    let files = sooner(
        data_file,
        sooner(
            delete_file,
            sooner(column_stats, sooner(table_stats, inlined)),
        ),
    );
    sooner(own, sooner(schema, sooner(table, sooner(column, files))))
}
