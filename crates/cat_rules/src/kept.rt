ghost use Rattle.std.specs.Prelude.{◌≡◌};
ghost use Rattle.std.specs.Option.{option_copied};
ghost use Rattle.cat_tables.specs.Table.{RisesByKey};
ghost use Rattle.cat_rows.specs.Batches.{tables_of};
ghost use Rattle.cat_rows.specs.Keys.{snapshot_key};
ghost use Rattle.cat_rules.specs.Kept as spec;
ghost use Rattle.cat_rules.specs.Kept.{newest};

use cat_rows::{CatRows, SnapshotRow};

/// The kept snapshots: all from the first to the newest.
#[derive(Clone, Copy, Debug)]
pub struct Kept {
    pub first: u64,
    pub newest: u64,
}

/// The newest snapshot.
pub fn newest_of(rows: &[SnapshotRow]) -> Option<&SnapshotRow>
    ensures { option_copied result ≡ newest rows.now }
{
    rows.last()
}

fn id_of(row: Option<&SnapshotRow>) -> u64
    ensures { result ≡ spec.id_of (option_copied row.entry) }
{
    match row {
        Some(row) => row.snapshot_id,
        None => 0,
    }
}

pub fn kept_of(rows: &[SnapshotRow]) -> Kept
    ensures { result ≡ spec.kept_of rows.now }
{
    Kept {
        first: id_of(rows.first()),
        newest: id_of(newest_of(rows)),
    }
}

/// The first kept snapshot.
pub fn first_kept(rows: &CatRows) -> u64
    ensures first { result ≡ (spec.kept_of (tables_of rows.now).snapshot).first }
    ensures rises { RisesByKey snapshot_key (tables_of rows.now).snapshot }
{
    kept_of(rows.snapshot()).first
}
