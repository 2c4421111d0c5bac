ghost use Rattle.cat_rows.specs.Keys as keys;
ghost use Rattle.std.specs.Prelude.{[], ◌∷◌};
ghost use Rattle.cat_rows.specs.Validities as validities;

use cat_tables::{Keyed, Versioned};
use lake_types::{Blob, Copied};
use std::alloc::{AllocError, Global};
use std::cmp::Ordering;

/// A row of a table that lies in the catalogue itself.
#[derive(Debug, Drop)]
pub struct InlinedRow {
    pub table_id: u64,
    pub row_id: u64,
    pub begin_snapshot: u64,
    pub end_snapshot: Option<u64>,
    /// The row's cells, spelled as bytes.
    pub cells: Blob,
}

impl Keyed for InlinedRow {
    type Key = (u64, u64, u64);

    ghost parts = { λ k. k.0 ∷ k.1 ∷ k.2 ∷ [] };

    ghost key = { keys.inlined_row_key };

    fn compare_key(&self, other: &(u64, u64, u64)) -> Ordering {
        [self.table_id, self.row_id, self.begin_snapshot]
            .as_slice()
            .cmp([other.0, other.1, other.2].as_slice())
    }

    fn compare_row(&self, other: &InlinedRow) -> Ordering {
        [self.table_id, self.row_id, self.begin_snapshot]
            .as_slice()
            .cmp([other.table_id, other.row_id, other.begin_snapshot].as_slice())
    }
}

impl Versioned for InlinedRow {
    ghost validity = { validities.inlined_row_validity };

    ghost laws = { validities.inlined_row_laws };

    fn has_end(&self) -> bool {
        self.end_snapshot.is_some()
    }

    fn end_at(&mut self, snapshot: u64) {
        if self.end_snapshot.is_none() {
            self.end_snapshot = Some(snapshot);
        }
    }
}

impl Copied for InlinedRow {
    fn copy(&self, alloc: Global) -> Result<InlinedRow, AllocError> {
        Ok(InlinedRow {
            table_id: self.table_id,
            row_id: self.row_id,
            begin_snapshot: self.begin_snapshot,
            end_snapshot: self.end_snapshot,
            cells: self.cells.copy(alloc)?,
        })
    }
}
