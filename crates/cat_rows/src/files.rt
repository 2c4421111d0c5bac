ghost use Rattle.cat_rows.specs.Keys as keys;
ghost use Rattle.std.specs.Prelude.{[], ◌∷◌};
ghost use Rattle.cat_rows.specs.Validities as validities;

use cat_tables::{Keyed, Versioned};
use lake_types::{Copied, Words};
use std::alloc::{AllocError, Global};
use std::cmp::Ordering;

/// A file with rows of a table.
#[derive(Debug, Drop)]
pub struct DataFileRow {
    pub data_file_id: u64,
    pub begin_snapshot: u64,
    pub end_snapshot: Option<u64>,
    pub table_id: u64,
    pub path: Words,
    pub record_count: u64,
    pub file_size_bytes: u64,
    /// The id of the file's first row; none where the file has a row id column.
    pub row_id_start: Option<u64>,
    /// The sum over its rows of 16 and the weights of their cells.
    pub weight: u64,
}

impl Keyed for DataFileRow {
    type Key = u64;

    ghost parts = { λ k. k ∷ [] };

    ghost key = { keys.data_file_key };

    fn compare_key(&self, other: &u64) -> Ordering {
        [self.data_file_id].as_slice().cmp([*other].as_slice())
    }

    fn compare_row(&self, other: &DataFileRow) -> Ordering {
        [self.data_file_id]
            .as_slice()
            .cmp([other.data_file_id].as_slice())
    }
}

impl Versioned for DataFileRow {
    ghost validity = { validities.data_file_validity };

    ghost laws = { validities.data_file_laws };

    fn has_end(&self) -> bool {
        self.end_snapshot.is_some()
    }

    fn end_at(&mut self, snapshot: u64) {
        if self.end_snapshot.is_none() {
            self.end_snapshot = Some(snapshot);
        }
    }
}

impl Copied for DataFileRow {
    fn copy(&self, alloc: Global) -> Result<DataFileRow, AllocError> {
        Ok(DataFileRow {
            data_file_id: self.data_file_id,
            begin_snapshot: self.begin_snapshot,
            end_snapshot: self.end_snapshot,
            table_id: self.table_id,
            path: self.path.copy(alloc)?,
            record_count: self.record_count,
            file_size_bytes: self.file_size_bytes,
            row_id_start: self.row_id_start,
            weight: self.weight,
        })
    }
}

/// A file with the places of rows that are deleted from a data file.
#[derive(Debug, Drop)]
pub struct DeleteFileRow {
    pub delete_file_id: u64,
    pub begin_snapshot: u64,
    pub end_snapshot: Option<u64>,
    pub table_id: u64,
    /// The data file whose rows it takes away.
    pub data_file_id: u64,
    pub path: Words,
    pub delete_count: u64,
    pub file_size_bytes: u64,
}

impl Keyed for DeleteFileRow {
    type Key = u64;

    ghost parts = { λ k. k ∷ [] };

    ghost key = { keys.delete_file_key };

    fn compare_key(&self, other: &u64) -> Ordering {
        [self.delete_file_id].as_slice().cmp([*other].as_slice())
    }

    fn compare_row(&self, other: &DeleteFileRow) -> Ordering {
        [self.delete_file_id]
            .as_slice()
            .cmp([other.delete_file_id].as_slice())
    }
}

impl Versioned for DeleteFileRow {
    ghost validity = { validities.delete_file_validity };

    ghost laws = { validities.delete_file_laws };

    fn has_end(&self) -> bool {
        self.end_snapshot.is_some()
    }

    fn end_at(&mut self, snapshot: u64) {
        if self.end_snapshot.is_none() {
            self.end_snapshot = Some(snapshot);
        }
    }
}

impl Copied for DeleteFileRow {
    fn copy(&self, alloc: Global) -> Result<DeleteFileRow, AllocError> {
        Ok(DeleteFileRow {
            delete_file_id: self.delete_file_id,
            begin_snapshot: self.begin_snapshot,
            end_snapshot: self.end_snapshot,
            table_id: self.table_id,
            data_file_id: self.data_file_id,
            path: self.path.copy(alloc)?,
            delete_count: self.delete_count,
            file_size_bytes: self.file_size_bytes,
        })
    }
}

/// Statistics of a column in a data file.
#[derive(Debug, Drop)]
pub struct FileColumnStatsRow {
    pub data_file_id: u64,
    pub column_id: u64,
    pub null_count: u64,
    /// The text of the least value; none where it has no bound.
    pub min_value: Option<Words>,
    /// The text of the greatest value; none where it has no bound.
    pub max_value: Option<Words>,
}

impl Keyed for FileColumnStatsRow {
    type Key = (u64, u64);

    ghost parts = { λ k. k.0 ∷ k.1 ∷ [] };

    ghost key = { keys.file_column_stats_key };

    fn compare_key(&self, other: &(u64, u64)) -> Ordering {
        [self.data_file_id, self.column_id]
            .as_slice()
            .cmp([other.0, other.1].as_slice())
    }

    fn compare_row(&self, other: &FileColumnStatsRow) -> Ordering {
        [self.data_file_id, self.column_id]
            .as_slice()
            .cmp([other.data_file_id, other.column_id].as_slice())
    }
}

impl Copied for FileColumnStatsRow {
    fn copy(&self, alloc: Global) -> Result<FileColumnStatsRow, AllocError> {
        Ok(FileColumnStatsRow {
            data_file_id: self.data_file_id,
            column_id: self.column_id,
            null_count: self.null_count,
            min_value: self.min_value.copy(alloc)?,
            max_value: self.max_value.copy(alloc)?,
        })
    }
}

/// Counts and counters of a table at the newest snapshot that sees it.
#[derive(Debug, Drop)]
pub struct TableStatsRow {
    pub table_id: u64,
    pub record_count: u64,
    pub next_row_id: u64,
    pub next_field_id: u64,
    pub file_size_bytes: u64,
}

impl Keyed for TableStatsRow {
    type Key = u64;

    ghost parts = { λ k. k ∷ [] };

    ghost key = { keys.table_stats_key };

    fn compare_key(&self, other: &u64) -> Ordering {
        [self.table_id].as_slice().cmp([*other].as_slice())
    }

    fn compare_row(&self, other: &TableStatsRow) -> Ordering {
        [self.table_id].as_slice().cmp([other.table_id].as_slice())
    }
}

impl Copied for TableStatsRow {
    fn copy(&self, _alloc: Global) -> Result<TableStatsRow, AllocError> {
        Ok(TableStatsRow {
            table_id: self.table_id,
            record_count: self.record_count,
            next_row_id: self.next_row_id,
            next_field_id: self.next_field_id,
            file_size_bytes: self.file_size_bytes,
        })
    }
}

/// A file that no kept snapshot needs.
#[derive(Debug, Drop)]
pub struct ScheduledFileRow {
    pub path: Words,
}

impl Keyed for ScheduledFileRow {
    type Key = Words;

    ghost parts = { λ k. k };

    ghost key = { keys.scheduled_file_key };

    fn compare_key(&self, other: &Words) -> Ordering {
        self.path.as_str().as_bytes().cmp(other.as_str().as_bytes())
    }

    fn compare_row(&self, other: &ScheduledFileRow) -> Ordering {
        self.path
            .as_str()
            .as_bytes()
            .cmp(other.path.as_str().as_bytes())
    }
}

impl Copied for ScheduledFileRow {
    fn copy(&self, alloc: Global) -> Result<ScheduledFileRow, AllocError> {
        Ok(ScheduledFileRow {
            path: self.path.copy(alloc)?,
        })
    }
}
