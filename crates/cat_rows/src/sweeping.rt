//! The rows of a list of keys taken away in one pass over their table.

ghost use Rattle.std.specs.Prelude.{◌≡◌, ◌≤◌, true, is_some};
ghost use Rattle.std.specs.List.{filter_map};
ghost use Rattle.cat_tables.specs.Table.{all_removed};
ghost use Rattle.cat_rows.specs.ByTable as by_table;
ghost use Rattle.cat_rows.specs.Steps as steps;
ghost use Rattle.cat_rows.specs.Sweeping as spec;

use crate::batch::Key;
use crate::files::{
    DataFileRow, DeleteFileRow, FileColumnStatsRow, ScheduledFileRow, TableStatsRow,
};
use crate::fitting::has_key_in_order;
use crate::history::{MetadataRow, SnapshotChangesRow, SnapshotRow};
use crate::inlined::InlinedRow;
use crate::key_order::KeyRef;
use crate::schemas::{ColumnRow, SchemaRow, TableRow};
use cat_tables::{Keyed, KeyedTable};

/// A row of one of the catalogue's tables.
pub(crate) trait PlacedRow: Keyed {
    ghost use Rattle.std.specs.Prelude.{List, ℕ, Option};
    ghost use Rattle.cat_rows.specs.declared.batch.Key.{Key};

    /// The place of the row among all rows.
    ghost place_of: { Self → List ℕ };

    /// What a key of its table is compared by; none of another table's key.
    ghost parts_in: { Key → Option (List ℕ) };

    fn place(&self) -> KeyRef<'_>
        ensures { steps.ref_place result ≡ place_of self.now };

    /// Whether a key is one of its table.
    fn is_key(key: &Key) -> bool
        ensures { result ≡ is_some (parts_in key.now) };

    ghost agree: { spec.PlacesAgree Self.key place_of parts_in };
}

impl PlacedRow for MetadataRow {
    ghost place_of = { spec.metadata_place };

    ghost parts_in = { by_table.metadata_parts };

    ghost agree = { spec.metadata_agrees };

    fn place(&self) -> KeyRef<'_> {
        KeyRef::Metadata(self.key.as_str())
    }

    fn is_key(key: &Key) -> bool {
        matches!(key, Key::Metadata(..))
    }
}

impl PlacedRow for SnapshotRow {
    ghost place_of = { spec.snapshot_place };

    ghost parts_in = { by_table.snapshot_parts };

    ghost agree = { spec.snapshot_agrees };

    fn place(&self) -> KeyRef<'_> {
        KeyRef::Snapshot(self.snapshot_id)
    }

    fn is_key(key: &Key) -> bool {
        matches!(key, Key::Snapshot(..))
    }
}

impl PlacedRow for SnapshotChangesRow {
    ghost place_of = { spec.snapshot_changes_place };

    ghost parts_in = { by_table.snapshot_changes_parts };

    ghost agree = { spec.snapshot_changes_agrees };

    fn place(&self) -> KeyRef<'_> {
        KeyRef::SnapshotChanges(self.snapshot_id)
    }

    fn is_key(key: &Key) -> bool {
        matches!(key, Key::SnapshotChanges(..))
    }
}

impl PlacedRow for SchemaRow {
    ghost place_of = { spec.schema_place };

    ghost parts_in = { by_table.schema_parts };

    ghost agree = { spec.schema_agrees };

    fn place(&self) -> KeyRef<'_> {
        KeyRef::Schema(self.schema_id)
    }

    fn is_key(key: &Key) -> bool {
        matches!(key, Key::Schema(..))
    }
}

impl PlacedRow for TableRow {
    ghost place_of = { spec.table_place };

    ghost parts_in = { by_table.table_parts };

    ghost agree = { spec.table_agrees };

    fn place(&self) -> KeyRef<'_> {
        KeyRef::Table(self.table_id)
    }

    fn is_key(key: &Key) -> bool {
        matches!(key, Key::Table(..))
    }
}

impl PlacedRow for ColumnRow {
    ghost place_of = { spec.column_place };

    ghost parts_in = { by_table.column_parts };

    ghost agree = { spec.column_agrees };

    fn place(&self) -> KeyRef<'_> {
        KeyRef::Column(self.table_id, self.column_id, self.begin_snapshot)
    }

    fn is_key(key: &Key) -> bool {
        matches!(key, Key::Column(..))
    }
}

impl PlacedRow for DataFileRow {
    ghost place_of = { spec.data_file_place };

    ghost parts_in = { by_table.data_file_parts };

    ghost agree = { spec.data_file_agrees };

    fn place(&self) -> KeyRef<'_> {
        KeyRef::DataFile(self.data_file_id)
    }

    fn is_key(key: &Key) -> bool {
        matches!(key, Key::DataFile(..))
    }
}

impl PlacedRow for DeleteFileRow {
    ghost place_of = { spec.delete_file_place };

    ghost parts_in = { by_table.delete_file_parts };

    ghost agree = { spec.delete_file_agrees };

    fn place(&self) -> KeyRef<'_> {
        KeyRef::DeleteFile(self.delete_file_id)
    }

    fn is_key(key: &Key) -> bool {
        matches!(key, Key::DeleteFile(..))
    }
}

impl PlacedRow for FileColumnStatsRow {
    ghost place_of = { spec.file_column_stats_place };

    ghost parts_in = { by_table.file_column_stats_parts };

    ghost agree = { spec.file_column_stats_agrees };

    fn place(&self) -> KeyRef<'_> {
        KeyRef::FileColumnStats(self.data_file_id, self.column_id)
    }

    fn is_key(key: &Key) -> bool {
        matches!(key, Key::FileColumnStats(..))
    }
}

impl PlacedRow for TableStatsRow {
    ghost place_of = { spec.table_stats_place };

    ghost parts_in = { by_table.table_stats_parts };

    ghost agree = { spec.table_stats_agrees };

    fn place(&self) -> KeyRef<'_> {
        KeyRef::TableStats(self.table_id)
    }

    fn is_key(key: &Key) -> bool {
        matches!(key, Key::TableStats(..))
    }
}

impl PlacedRow for InlinedRow {
    ghost place_of = { spec.inlined_row_place };

    ghost parts_in = { by_table.inlined_row_parts };

    ghost agree = { spec.inlined_row_agrees };

    fn place(&self) -> KeyRef<'_> {
        KeyRef::Inlined(self.table_id, self.row_id, self.begin_snapshot)
    }

    fn is_key(key: &Key) -> bool {
        matches!(key, Key::Inlined(..))
    }
}

impl PlacedRow for ScheduledFileRow {
    ghost place_of = { spec.scheduled_file_place };

    ghost parts_in = { by_table.scheduled_file_parts };

    ghost agree = { spec.scheduled_file_agrees };

    fn place(&self) -> KeyRef<'_> {
        KeyRef::ScheduledFile(self.path.as_str())
    }

    fn is_key(key: &Key) -> bool {
        matches!(key, Key::ScheduledFile(..))
    }
}

/// Takes away the rows of those keys that are of their table, in one pass, and in none where no key is.
pub(crate) fn remove_listed<R: PlacedRow>(table: &mut KeyedTable<R>, keys: &[Key])
    requires { steps.rises (λ k. k) keys.now ≡ true }
    ensures rows { table.new.rows ≡ all_removed R.key (filter_map R.parts_in keys.now) table.old.rows }
    ensures room { table.old.room ≤ table.new.room }
{
    if has_own_key::<R>(keys) {
        table.retain(
            |row|
                requires { steps.rises (λ k. k) keys.now ≡ true }
            { !has_key_in_order(keys, row.place()) },
        );
    }
}

fn has_own_key<R: PlacedRow>(keys: &[Key]) -> bool
    ensures { result ≡ steps.any_picked R.parts_in keys.now }
{
    keys.iter().any(|key| R::is_key(key))
}
