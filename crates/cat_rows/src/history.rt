ghost use Rattle.cat_rows.specs.Keys as keys;
ghost use Rattle.std.specs.Prelude.{[], ◌∷◌};

use cat_tables::Keyed;
use lake_types::{Copied, Words};
use std::alloc::{AllocError, Global};
use std::cmp::Ordering;

/// An entry of the catalogue about itself, as `layout`.
#[derive(Debug, Drop)]
pub struct MetadataRow {
    /// The entry's name.
    pub key: Words,
    pub value: Words,
}

impl Keyed for MetadataRow {
    type Key = Words;

    ghost parts = { λ k. k };

    ghost key = { keys.metadata_key };

    fn compare_key(&self, other: &Words) -> Ordering {
        self.key.as_str().as_bytes().cmp(other.as_str().as_bytes())
    }

    fn compare_row(&self, other: &MetadataRow) -> Ordering {
        self.key
            .as_str()
            .as_bytes()
            .cmp(other.key.as_str().as_bytes())
    }
}

impl Copied for MetadataRow {
    fn copy(&self, alloc: Global) -> Result<MetadataRow, AllocError> {
        Ok(MetadataRow {
            key: self.key.copy(alloc)?,
            value: self.value.copy(alloc)?,
        })
    }
}

/// A snapshot of the lake, and the counters at it.
#[derive(Debug, Drop)]
pub struct SnapshotRow {
    pub snapshot_id: u64,
    /// Milliseconds since the beginning of 1970, UTC.
    pub snapshot_time: i64,
    /// Past every id of a schema or table.
    pub next_catalog_id: u64,
    /// Past every id of a data or delete file.
    pub next_file_id: u64,
}

impl Keyed for SnapshotRow {
    type Key = u64;

    ghost parts = { λ k. k ∷ [] };

    ghost key = { keys.snapshot_key };

    fn compare_key(&self, other: &u64) -> Ordering {
        [self.snapshot_id].as_slice().cmp([*other].as_slice())
    }

    fn compare_row(&self, other: &SnapshotRow) -> Ordering {
        [self.snapshot_id]
            .as_slice()
            .cmp([other.snapshot_id].as_slice())
    }
}

impl Copied for SnapshotRow {
    fn copy(&self, _alloc: Global) -> Result<SnapshotRow, AllocError> {
        Ok(SnapshotRow {
            snapshot_id: self.snapshot_id,
            snapshot_time: self.snapshot_time,
            next_catalog_id: self.next_catalog_id,
            next_file_id: self.next_file_id,
        })
    }
}

/// What a snapshot changed, as a changes text.
#[derive(Debug, Drop)]
pub struct SnapshotChangesRow {
    pub snapshot_id: u64,
    pub changes_made: Words,
}

impl Keyed for SnapshotChangesRow {
    type Key = u64;

    ghost parts = { λ k. k ∷ [] };

    ghost key = { keys.snapshot_changes_key };

    fn compare_key(&self, other: &u64) -> Ordering {
        [self.snapshot_id].as_slice().cmp([*other].as_slice())
    }

    fn compare_row(&self, other: &SnapshotChangesRow) -> Ordering {
        [self.snapshot_id]
            .as_slice()
            .cmp([other.snapshot_id].as_slice())
    }
}

impl Copied for SnapshotChangesRow {
    fn copy(&self, alloc: Global) -> Result<SnapshotChangesRow, AllocError> {
        Ok(SnapshotChangesRow {
            snapshot_id: self.snapshot_id,
            changes_made: self.changes_made.copy(alloc)?,
        })
    }
}
