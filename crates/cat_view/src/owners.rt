ghost use Rattle.std.specs.Prelude.{◌≡◌, ◌&&◌, nat_le};
ghost use Rattle.cat_tables.specs.Validity.{is_before};
ghost use Rattle.cat_view.specs.Owners as spec;

use crate::groups::Owned;
use cat_rows::{ColumnRow, DataFileRow, DeleteFileRow, FileColumnStatsRow, InlinedRow};

/// Whether a snapshot sees a row that begins and ends there.
pub fn is_visible(begin: u64, end: Option<u64>, snapshot: u64) -> bool
    ensures { result ≡ (nat_le begin snapshot && is_before snapshot end) }
{
    begin <= snapshot && cat_tables::is_before(snapshot, end)
}

/// The owner of a row, where a snapshot sees it.
fn owner_if(is_seen: bool, owner: u64) -> Option<u64>
    ensures { result ≡ spec.owner_if is_seen owner }
{
    if is_seen { Some(owner) } else { None }
}

impl Owned for ColumnRow {
    ghost owner = { spec.column_owner };

    fn owner(&self, snapshot: u64) -> Option<u64> {
        owner_if(
            is_visible(self.begin_snapshot, self.end_snapshot, snapshot),
            self.table_id,
        )
    }
}

impl Owned for DataFileRow {
    ghost owner = { spec.data_file_owner };

    fn owner(&self, snapshot: u64) -> Option<u64> {
        owner_if(
            is_visible(self.begin_snapshot, self.end_snapshot, snapshot),
            self.table_id,
        )
    }
}

impl Owned for InlinedRow {
    ghost owner = { spec.inlined_owner };

    fn owner(&self, snapshot: u64) -> Option<u64> {
        owner_if(
            is_visible(self.begin_snapshot, self.end_snapshot, snapshot),
            self.table_id,
        )
    }
}

impl Owned for DeleteFileRow {
    ghost owner = { spec.delete_file_owner };

    fn owner(&self, snapshot: u64) -> Option<u64> {
        owner_if(
            is_visible(self.begin_snapshot, self.end_snapshot, snapshot),
            self.data_file_id,
        )
    }
}

impl Owned for FileColumnStatsRow {
    ghost owner = { spec.stats_owner };

    fn owner(&self, _snapshot: u64) -> Option<u64> {
        Some(self.data_file_id)
    }
}
