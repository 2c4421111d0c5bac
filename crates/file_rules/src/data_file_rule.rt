ghost use Rattle.std.specs.Prelude.{◌≡◌, ◌+◌, nat_lt, IfOk};
ghost use Rattle.cat_rows.specs.Batches.{tables_of};
ghost use Rattle.cat_rules.specs.First.{FirstBad, Holds};
ghost use Rattle.cat_rules.specs.HistoryRule.{IsSnapshotBad};
ghost use Rattle.cat_rules.specs.IntervalRule.{IsIntervalBad};
ghost use Rattle.cat_rules.specs.Lookups.{stats_of_table};
ghost use Rattle.cat_rules.specs.Places.{of_data_file};
ghost use Rattle.cat_rules.specs.DataFileRule as spec;

use crate::path_rule::first_bad_path;
use cat_rows::{CatRows, DataFileRow, Key};
use cat_rules::{RowRule, first_bad, first_unmatched, kept_of, sooner};
use cat_tables::find_row;
use lake_types::NoMemory;
use std::alloc::Global;

/// The most rows that a file has.
const MOST_ROWS: u64 = 4_194_304;

/// What each row weighs at least.
const LEAST_WEIGHT: u64 = 17;

/// Whether a number is below a sum; a sum past the type's end is above all numbers.
fn is_below_sum(number: u64, start: u64, count: u64) -> bool
    ensures { result ≡ nat_lt number (start + count) }
{
    match start.checked_add(count) {
        Some(end) => number < end,
        None => true,
    }
}

/// Whether the ids of a file's rows, where they are counted from a start, aren't all below the table's next
/// row id.
fn has_row_id_past(rows: &CatRows, row: &DataFileRow) -> bool
    ensures { result ≡ spec.has_row_id_past (stats_of_table (tables_of rows.now) row.now.table_id)
        row.now.row_id_start row.now.record_count }
{
    match (
        find_row(rows.table_stats(), &row.table_id),
        row.row_id_start,
    ) {
        (Some(stats), Some(start)) => is_below_sum(stats.next_row_id, start, row.record_count),
        _ => false,
    }
}

fn has_wrong_numbers(rows: &CatRows, row: &DataFileRow) -> bool
    ensures { result ≡ spec.has_wrong_numbers (tables_of rows.now) row.now }
{
    row.record_count == 0
        || row.record_count > MOST_ROWS
        || row.weight < LEAST_WEIGHT * row.record_count
        || has_row_id_past(rows, row)
}

/// A data file with wrong numbers is bad.
#[derive(Drop)]
struct WrongNumbers<'a> {
    rows: &'a CatRows,
}

impl RowRule<DataFileRow> for WrongNumbers<'_> {
    ghost is_bad = { λ rule r. spec.has_wrong_numbers (tables_of rule.rows.now) r };

    ghost name = { of_data_file };

    fn judge(&self, row: &DataFileRow) -> Option<Key> {
        if has_wrong_numbers(self.rows, row) {
            Some(Key::DataFile(row.data_file_id))
        } else {
            None
        }
    }
}

/// The first bad row of the rule about data files, but for their paths: a data file that a kept snapshot sees
/// has a table that it sees, and right numbers.
fn first_wrong_data_file(rows: &CatRows) -> Option<Key>
    requires history { Holds (IsSnapshotBad (tables_of rows.now)) }
    requires intervals { Holds (IsIntervalBad (tables_of rows.now)) }
    ensures { FirstBad (spec.IsDataFileWrong (tables_of rows.now)) result }
{
    // That tables rise is what the proof takes of them.
    let _tables = rows.table();
    let kept = kept_of(rows.snapshot());
    let unmatched = first_unmatched(rows, kept, rows.data_file());
    let wrong = first_bad(&WrongNumbers { rows }, rows.data_file());
    sooner(unmatched, wrong)
}

/// The first bad row of the rule about data files: each with its table and its numbers, and the paths of all files.
pub fn first_bad_data_file(alloc: Global, rows: &CatRows) -> Result<Option<Key>, NoMemory>
    requires history { Holds (IsSnapshotBad (tables_of rows.now)) }
    requires intervals { Holds (IsIntervalBad (tables_of rows.now)) }
    ensures { IfOk result (FirstBad (spec.IsDataFileBad (tables_of rows.now))) }
{
    let path = first_bad_path(alloc, rows)?;
    Ok(sooner(first_wrong_data_file(rows), path))
}
