ghost use Rattle.std.specs.Prelude.{IfOk};
ghost use Rattle.std.specs.Bool.{Decides};
ghost use Rattle.cat_rows.specs.Batches.{tables_of};
ghost use Rattle.cat_rules.specs.First.{FirstBad};
ghost use Rattle.cat_rules.specs.Places.{of_data_file, of_delete_file, of_scheduled};
ghost use Rattle.file_rules.specs.Ids as spec;
ghost use Rattle.cat_rules.specs.DataFileRule.{IsLong, IsPathBad};

use crate::ids::{Ids, first_ids, is_taken, is_taken_below};
use cat_rows::{CatRows, DataFileRow, DeleteFileRow, Key, ScheduledFileRow};
use cat_rules::{CheckedRule, first_checked, sooner};
use lake_types::{Copied, NoMemory};
use std::alloc::Global;

/// The most bytes of a path.
const MOST_BYTES: usize = 200;

/// Files by their paths.
#[derive(Drop)]
struct Paths<'a> {
    data_ids: Ids<'a>,
    delete_ids: Ids<'a>,
}

fn is_long(path: &str) -> bool
    ensures { Decides result (IsLong path.now) }
{
    path.len() > MOST_BYTES
}

impl<'a> CheckedRule<DataFileRow> for Paths<'a> {
    ghost Bad = { λ s r. spec.HasBadDataPath (spec.id_at s.data_ids) r };

    ghost name = { of_data_file };

    fn judge(&self, _alloc: Global, row: &DataFileRow) -> Result<Option<Key>, NoMemory> {
        let path = row.path.as_str();
        if is_long(path) || is_taken_below(&self.data_ids, path, row.data_file_id) {
            Ok(Some(Key::DataFile(row.data_file_id)))
        } else {
            Ok(None)
        }
    }
}

impl<'a> CheckedRule<DeleteFileRow> for Paths<'a> {
    ghost Bad = { λ s r. spec.HasBadDeletePath (spec.id_at s.data_ids) (spec.id_at s.delete_ids) r };

    ghost name = { of_delete_file };

    fn judge(&self, _alloc: Global, row: &DeleteFileRow) -> Result<Option<Key>, NoMemory> {
        let path = row.path.as_str();
        let earlier = is_taken(&self.data_ids, path);
        if is_long(path)
            || (earlier || is_taken_below(&self.delete_ids, path, row.delete_file_id))
        {
            Ok(Some(Key::DeleteFile(row.delete_file_id)))
        } else {
            Ok(None)
        }
    }
}

impl<'a> CheckedRule<ScheduledFileRow> for Paths<'a> {
    ghost Bad = { λ s r. spec.HasBadScheduledPath (spec.id_at s.data_ids) (spec.id_at s.delete_ids) r };

    ghost name = { of_scheduled };

    fn judge(&self, alloc: Global, row: &ScheduledFileRow) -> Result<Option<Key>, NoMemory> {
        let path = row.path.as_str();
        if is_long(path) || (is_taken(&self.data_ids, path) || is_taken(&self.delete_ids, path)) {
            let copy = row.path.copy(alloc)?;
            Ok(Some(Key::ScheduledFile(copy)))
        } else {
            Ok(None)
        }
    }
}

/// The first bad row of the rule about paths: they have at most 200 bytes and differ over data files, delete
/// files and scheduled files, and of two files with one path the later is bad.
pub(crate) fn first_bad_path(alloc: Global, rows: &CatRows) -> Result<Option<Key>, NoMemory>
    ensures { IfOk result (FirstBad (IsPathBad (tables_of rows.now))) }
{
    let paths = Paths {
        data_ids: first_ids(alloc, rows.data_file())?,
        delete_ids: first_ids(alloc, rows.delete_file())?,
    };
    let data_file = first_checked(alloc, &paths, rows.data_file())?;
    let delete_file = first_checked(alloc, &paths, rows.delete_file())?;
    let scheduled = first_checked(alloc, &paths, rows.scheduled_file())?;
    Ok(sooner(data_file, sooner(delete_file, scheduled)))
}
