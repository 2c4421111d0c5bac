ghost use Rattle.std.specs.Prelude.{◌≡◌, ◌||◌, ◌==◌, not, IfOk};
ghost use Rattle.cat_rows.specs.Batches.{tables_of};
ghost use Rattle.cat_rules.specs.EachKept.{AtKept};
ghost use Rattle.cat_rules.specs.First.{FirstBad, Holds};
ghost use Rattle.cat_rules.specs.HistoryRule.{IsSnapshotBad};
ghost use Rattle.cat_rules.specs.IntervalRule.{IsIntervalBad};
ghost use Rattle.std.specs.Option.{option_copied};
ghost use Rattle.cat_rules.specs.Places.{of_delete_file};
ghost use Rattle.cat_rows.specs.Validities.{delete_file_validity};
ghost use Rattle.cat_rules.specs.Crowded.{extent_of};
ghost use Rattle.cat_rules.specs.DeleteFileRule as spec;
ghost use Rattle.file_rules.specs.Groups.{delete_file_group};

use cat_rows::{CatRows, DataFileRow, DeleteFileRow, Key};
use cat_rules::{
    Grouped, RowRule, first_bad, first_crowded, first_kept, first_unmatched, kept_of, sooner,
};
use cat_spans::{Group, Span};
use cat_tables::find_row;
use lake_types::NoMemory;
use std::alloc::Global;

/// Whether a delete file has another table than its data file, or no count from 1 to the file's rows.
fn differs_from(file: Option<&DataFileRow>, row: &DeleteFileRow) -> bool
    ensures { result ≡ spec.differs_from (option_copied file.entry) row.now }
{
    match file {
        Some(file) => row.table_id != file.table_id
            || row.delete_count == 0
            || file.record_count < row.delete_count,
        None => false,
    }
}

/// A delete file that doesn't go with its data file is bad.
#[derive(Drop)]
struct Differing<'a> {
    rows: &'a CatRows,
}

impl RowRule<DeleteFileRow> for Differing<'_> {
    ghost is_bad = { λ rule r. spec.differs_from (spec.data_file_of (tables_of rule.rows.now) r) r };

    ghost name = { of_delete_file };

    fn judge(&self, row: &DeleteFileRow) -> Option<Key> {
        let file = find_row(self.rows.data_file(), &row.data_file_id);
        if differs_from(file, row) {
            Some(Key::DeleteFile(row.delete_file_id))
        } else {
            None
        }
    }
}

/// The first bad row of the rule about delete files, but for a second one of a data file: a delete file that
/// a kept snapshot sees has a data file that it sees, of the same table and with as many rows at least.
fn first_wrong_delete_file(rows: &CatRows) -> Option<Key>
    requires history { Holds (IsSnapshotBad (tables_of rows.now)) }
    requires intervals { Holds (IsIntervalBad (tables_of rows.now)) }
    ensures { FirstBad (spec.IsDeleteFileWrong (tables_of rows.now)) result }
{
    // That data files rise is what the proof takes of them.
    let _files = rows.data_file();
    let kept = kept_of(rows.snapshot());
    let unmatched = first_unmatched(rows, kept, rows.delete_file());
    let differing = first_bad(&Differing { rows }, rows.delete_file());
    sooner(unmatched, differing)
}

/// Delete files by their data file, from the first kept snapshot on.
#[derive(Drop)]
struct DeletedFiles {
    first: u64,
}

impl Grouped<DeleteFileRow> for DeletedFiles {
    ghost extent = { λ rule r. extent_of rule.first delete_file_validity delete_file_group r };

    ghost name = { of_delete_file };

    fn span<'a>(&self, row: &'a DeleteFileRow) -> Span<'a> {
        let group = Group {
            first: row.data_file_id,
            second: 0,
            text: &[],
        };
        Span::new(group, row.begin_snapshot.max(self.first), row.end_snapshot)
    }

    fn key(&self, row: &DeleteFileRow) -> Key {
        Key::DeleteFile(row.delete_file_id)
    }
}

/// The first delete file with the data file of an earlier one that a kept snapshot sees too.
fn first_second_delete_file(alloc: Global, rows: &CatRows) -> Result<Option<Key>, NoMemory>
    requires history { Holds (IsSnapshotBad (tables_of rows.now)) }
    requires intervals { Holds (IsIntervalBad (tables_of rows.now)) }
    ensures { IfOk result (FirstBad (AtKept spec.IsSecondDeleteFile (tables_of rows.now))) }
{
    let first = first_kept(rows);
    first_crowded(alloc, &DeletedFiles { first }, 1, rows.delete_file())
}

/// The first bad row of the rule about delete files: each with its data file, and one of a data file at most.
pub fn first_bad_delete_file(alloc: Global, rows: &CatRows) -> Result<Option<Key>, NoMemory>
    requires history { Holds (IsSnapshotBad (tables_of rows.now)) }
    requires intervals { Holds (IsIntervalBad (tables_of rows.now)) }
    ensures { IfOk result (FirstBad (spec.IsDeleteFileBad (tables_of rows.now))) }
{
    let second = first_second_delete_file(alloc, rows)?;
    Ok(sooner(first_wrong_delete_file(rows), second))
}
