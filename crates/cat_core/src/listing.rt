ghost use Rattle.std.specs.Prelude.{◌≡◌, IfOk};
ghost use Rattle.cat_core.specs.Listing as spec;
ghost use Rattle.cat_rows.specs.Batches.{tables_of};

use crate::catalogue::CatCore;
use cat_rows::{SnapshotChangesRow, SnapshotRow};
use file_disk::Held;
use keeper::Keeper;
use lake_model::{SnapRow, SnapRows};
use lake_types::{Copied, NoMemory};
use std::alloc::Global;

/// Snapshots with the texts of what they changed, both in their order.
fn listed(
    alloc: Global,
    snapshots: &[SnapshotRow],
    changes: &[SnapshotChangesRow],
) -> Result<SnapRows, NoMemory>
    ensures { IfOk result (λ rows. rows ≡ spec.listed snapshots.now changes.now) }
{
    let mut rows = SnapRows::new(alloc);
    let mut rest = snapshots;
    let mut texts = changes;
    while let [snapshot, more @ ..] = rest {
        let [text, others @ ..] = texts else {
            return Ok(rows);
        };
        rows.push(SnapRow {
            snapshot: snapshot.snapshot_id,
            changes: text.changes_made.copy(alloc)?,
        })?;
        rest = more;
        texts = others;
    }
    Ok(rows)
}

impl<K: Keeper, F: Held> CatCore<K, F> {
    /// Each kept snapshot, rising, with the text of what it changed.
    pub(crate) fn snapshots(&self, alloc: Global) -> Result<SnapRows, NoMemory>
        ensures { IfOk result (λ rows. rows ≡ spec.listed (tables_of self.now.rows).snapshot (tables_of self.now.rows).snapshot_changes) }
    {
        listed(alloc, self.rows.snapshot(), self.rows.snapshot_changes())
    }
}
