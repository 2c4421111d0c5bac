ghost use Rattle.std.specs.Prelude.{◌≡◌, IsTrue, IfOk, None};
ghost use Rattle.std.specs.List.{AllByRecursion};
ghost use Rattle.cat_rows.specs.Batches.{tables_of};
ghost use Rattle.cat_rules.specs.Rows.{SomeOf};
ghost use Rattle.cat_rules.specs.Sane.{IsFirstBadRow};
ghost use Rattle.cat_view.specs.Held.{IsHeld, held_in};

use cat_rows::{CatRows, DataFileRow, DeleteFileRow, SnapshotRow};
use cat_sane::first_bad_row;
use cat_stands::laws::sane_rows_can_be_seen;
use cat_view::{HeldFiles, Version, version_at};
use file_disk::{Held, MemFile};
use lake_types::NoMemory;
use std::alloc::Global;

fn breaks_no_rule(alloc: Global, rows: &CatRows) -> Result<bool, NoMemory>
    ensures { IfOk result (λ sane. IsTrue sane → IsFirstBadRow (tables_of rows.now) None) }
{
    match first_bad_row(alloc, rows)? {
        Some(_) => Ok(false),
        None => Ok(true),
    }
}

/// Whether the snapshot has a row.
fn is_kept(rows: &[SnapshotRow], snapshot: u64) -> bool
    ensures { IsTrue result → SomeOf (λ q. q.snapshot_id ≡ snapshot) rows.now }
{
    for row in rows {
        if row.snapshot_id == snapshot {
            return true;
        }
    }
    false
}

/// Whether each data file's path is that of a held file.
fn holds_data<F: Held>(held: &HeldFiles<F>, rows: &[DataFileRow]) -> bool
    ensures { IsTrue result → AllByRecursion (λ f. IsHeld F.name (held_in held.now).rows f.path) rows.now }
{
    for row in rows {
        if held.get(&row.path).is_none() {
            return false;
        }
    }
    true
}

/// Whether each delete file's path is that of a held file.
fn holds_deletes<F: Held>(held: &HeldFiles<F>, rows: &[DeleteFileRow]) -> bool
    ensures { IsTrue result → AllByRecursion (λ d. IsHeld F.name (held_in held.now).rows d.path) rows.now }
{
    for row in rows {
        if held.get(&row.path).is_none() {
            return false;
        }
    }
    true
}

/// The version that a snapshot sees; none where the rows break a rule, there is no such snapshot, or a file
/// isn't held.
pub fn seen(
    alloc: Global,
    rows: &CatRows,
    held: &HeldFiles<MemFile>,
    snapshot: u64,
) -> Result<Option<Version<MemFile>>, NoMemory> {
    if !breaks_no_rule(alloc, rows)? || !is_kept(rows.snapshot(), snapshot) {
        return Ok(None);
    }
    if !holds_data(held, rows.data_file()) || !holds_deletes(held, rows.delete_file()) {
        return Ok(None);
    }
    sane_rows_can_be_seen::<MemFile>();
    Ok(Some(version_at(alloc, rows, held, snapshot)?))
}

/// Holds one more file; false where one of its name is held.
#[tactic(auto, using(crate::proofs::HeldLemmas::unheld))]
pub fn hold(held: &mut HeldFiles<MemFile>, file: MemFile) -> Result<bool, NoMemory> {
    held.reserve(1)?;
    if held.get(file.name()).is_some() {
        return Ok(false);
    }
    held.add(file);
    Ok(true)
}
