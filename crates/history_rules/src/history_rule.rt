ghost use Rattle.std.specs.Prelude.{◌≡◌, not, IfOk};
ghost use Rattle.cat_tables.specs.Table.{RisesByKey};
ghost use Rattle.cat_rows.specs.Batches.{holds, tables_of};
ghost use Rattle.cat_rows.specs.Keys.{snapshot_key};
ghost use Rattle.cat_rules.specs.First.{FirstBad};
ghost use Rattle.cat_rules.specs.HistoryRule.{IsHistoryBad, IsMissing, IsSnapshotBad, changes_of, snapshot_of};

use crate::text_rule::first_unread_text;
use cat_rows::{CatRows, Key, SnapshotChangesRow, SnapshotRow};
use cat_rules::{RowRule, first_bad, sooner};
use lake_types::NoMemory;
use std::alloc::Global;

/// A snapshot without a changes text is bad.
#[derive(Drop)]
struct LacksText<'a> {
    rows: &'a CatRows,
}

impl RowRule<SnapshotRow> for LacksText<'_> {
    ghost is_bad = { λ rule r. not (holds (tables_of rule.rows.now) (changes_of r)) };

    ghost name = { changes_of };

    fn judge(&self, row: &SnapshotRow) -> Option<Key> {
        let key = Key::SnapshotChanges(row.snapshot_id);
        if self.rows.holds(&key) {
            None
        } else {
            Some(key)
        }
    }
}

/// A changes text without its snapshot is bad, and the snapshot is what is missing.
#[derive(Drop)]
struct LacksSnapshot<'a> {
    rows: &'a CatRows,
}

impl RowRule<SnapshotChangesRow> for LacksSnapshot<'_> {
    ghost is_bad = { λ rule r. not (holds (tables_of rule.rows.now) (snapshot_of r)) };

    ghost name = { snapshot_of };

    fn judge(&self, row: &SnapshotChangesRow) -> Option<Key> {
        let key = Key::Snapshot(row.snapshot_id);
        if self.rows.holds(&key) {
            None
        } else {
            Some(key)
        }
    }
}

/// The first snapshot that is missing between two.
fn first_gap(rows: &[SnapshotRow]) -> Option<Key>
    requires { RisesByKey snapshot_key rows.now }
    ensures { FirstBad (IsMissing rows.now) result }
{
    let Some((first, rest)) = rows.split_first() else {
        return Some(Key::Snapshot(0));
    };
    let mut last = first.snapshot_id;
    for row in rest {
        if row.snapshot_id - last > 1 {
            return Some(Key::Snapshot(last + 1));
        }
        last = row.snapshot_id;
    }
    None
}

/// The first bad row of the rule about snapshots, but for what their texts say: there are snapshots, consecutive ones, each with a changes
/// text, and there is no text of another.
fn first_bad_snapshot(rows: &CatRows) -> Option<Key>
    ensures { FirstBad (IsSnapshotBad (tables_of rows.now)) result }
{
    let gap = first_gap(rows.snapshot());
    let text = first_bad(&LacksText { rows }, rows.snapshot());
    let snapshot = first_bad(&LacksSnapshot { rows }, rows.snapshot_changes());
    sooner(gap, sooner(text, snapshot))
}

/// The first bad row of the rule about snapshots and their changes texts.
pub fn first_bad_history(alloc: Global, rows: &CatRows) -> Result<Option<Key>, NoMemory>
    ensures { IfOk result (FirstBad (IsHistoryBad (tables_of rows.now))) }
{
    let text = first_unread_text(alloc, rows)?;
    Ok(sooner(first_bad_snapshot(rows), text))
}
