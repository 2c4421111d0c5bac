ghost use Rattle.std.specs.Prelude.{◌≡◌, true, IfOk};
ghost use Rattle.std.specs.Bool.{Decides};
ghost use Rattle.std.specs.List.{list_any};
ghost use Rattle.cat_rows.specs.Batches.{tables_of};
ghost use Rattle.cat_rules.specs.EachKept.{AtKept};
ghost use Rattle.cat_rules.specs.First.{FirstBad, Holds};
ghost use Rattle.cat_rules.specs.HistoryRule.{IsSnapshotBad};
ghost use Rattle.cat_rules.specs.IntervalRule.{IsIntervalBad};
ghost use Rattle.cat_rules.specs.Places.{of_inlined};
ghost use Rattle.cat_rows.specs.Validities.{inlined_row_validity};
ghost use Rattle.cat_rules.specs.Meeting.{meets_table};
ghost use Rattle.cat_rules.specs.Lookups.{table_of};
ghost use Rattle.cat_rules.specs.InlinedRule as spec;
ghost use Rattle.inlined_rules.specs.Misfits as misfits;

use crate::crowded_inlined::first_crowded_inlined;
use crate::stays::stay_of;
use crate::term_index::{TermIndex, TypedTerms, index_of};
use cat_rows::{CatRows, InlinedRow, Key};
use cat_rules::{CheckedRule, first_checked, meets_table, sooner};
use cat_tables::{Interval, find_row};
use inline_rows::{CellsFault, cells_ok, decode_cells};
use lake_types::{NoMemory, Value, fits};
use std::alloc::{AllocError, Global};

/// The next field id of a row's table, where it has statistics.
fn next_field(rows: &CatRows, row: &InlinedRow) -> Option<u64>
    ensures { result ≡ spec.next_field (tables_of rows.now) row.now }
{
    match find_row(rows.table_stats(), &row.table_id) {
        Some(stats) => Some(stats.next_field_id),
        None => None,
    }
}

fn has_wrong_row_id(rows: &CatRows, row: &InlinedRow) -> bool
    ensures { Decides result (spec.HasWrongRowId (tables_of rows.now) row.now) }
{
    match find_row(rows.table_stats(), &row.table_id) {
        Some(stats) => stats.next_row_id <= row.row_id,
        None => false,
    }
}

/// Whether terms are of a type that refuses a cell, and one of its column is seen with the stay.
fn is_misfit_of(table: u64, stay: Interval, cell: &(u32, Value), typed: &TypedTerms) -> bool
    ensures { result ≡ misfits.is_misfit_of table stay cell.now typed.now }
{
    !fits(&cell.1, typed.column_type) && typed.terms.are_met(table, cell.0, stay)
}

/// Whether a column that is seen with the stay refuses a cell.
fn is_refused(index: &TermIndex, table: u64, stay: Interval, cell: &(u32, Value)) -> bool
    ensures { result ≡ list_any (misfits.is_misfit_of table stay cell.now) index.now }
{
    index
        .as_slice()
        .iter()
        .any(|typed| is_misfit_of(table, stay, cell, typed))
}

fn is_misfit(index: &TermIndex, table: u64, stay: Option<Interval>, cell: &(u32, Value)) -> bool
    ensures { result ≡ misfits.is_misfit index.now table stay cell.now }
{
    match stay {
        Some(stay) => is_refused(index, table, stay, cell),
        None => false,
    }
}

/// When a row and its table are valid together, if they ever are.
fn stay_in(rows: &CatRows, row: &InlinedRow) -> Option<Interval>
    ensures { result ≡ misfits.stay_in (tables_of rows.now) row.now }
{
    stay_of(row, find_row(rows.table(), &row.table_id))
}

fn are_misfits(rows: &CatRows, index: &TermIndex, row: &InlinedRow, cells: &[(u32, Value)]) -> bool
    ensures { result ≡ list_any (misfits.is_misfit index.now row.now.table_id (misfits.stay_in (tables_of rows.now) row.now)) cells.now }
{
    let stay = stay_in(rows, row);
    let table = row.table_id;
    cells.iter().any(|cell| is_misfit(index, table, stay, cell))
}

/// Whether a row's cells can't be read or aren't allowed, and whether one is refused.
fn judge_cells(
    alloc: Global,
    rows: &CatRows,
    index: &TermIndex,
    row: &InlinedRow,
) -> Result<(bool, bool), NoMemory>
    ensures unreadable { IfOk result (λ found. Decides found.0 (spec.HasUnreadableCells (tables_of rows.now) row.now)) }
    ensures misfit { IfOk result (λ found. Decides found.1 (misfits.HasMisfitBy (tables_of rows.now) index.now row.now)) }
{
    match decode_cells(alloc, row.cells.as_slice()) {
        Ok(cells) => {
            let allowed = cells_ok(cells.as_slice(), next_field(rows, row));
            Ok((!allowed, are_misfits(rows, index, row, cells.as_slice())))
        }
        Err(CellsFault::BadCells { .. }) => Ok((true, false)),
        Err(CellsFault::Memory) => Err(AllocError),
    }
}

fn is_wrong(
    alloc: Global,
    rows: &CatRows,
    index: &TermIndex,
    row: &InlinedRow,
) -> Result<bool, NoMemory>
    ensures { IfOk result (λ yes. Decides yes (misfits.IsInlinedWrong (tables_of rows.now) index.now row.now)) }
{
    let (unreadable, misfit) = judge_cells(alloc, rows, index, row)?;
    Ok(unreadable || (has_wrong_row_id(rows, row) || misfit))
}

/// The rows that are wrong, and that a kept snapshot sees with their table.
#[derive(Drop)]
struct WrongInlined<'a> {
    rows: &'a CatRows,
    index: TermIndex,
}

impl<'a> CheckedRule<InlinedRow> for WrongInlined<'a> {
    ghost Bad = { λ w r. (meets_table inlined_row_validity r (table_of (tables_of w.rows.now) r.table_id) ≡ true) × misfits.IsInlinedWrong (tables_of w.rows.now) w.index r };

    ghost name = { of_inlined };

    fn judge(&self, alloc: Global, row: &InlinedRow) -> Result<Option<Key>, NoMemory> {
        let wrong = is_wrong(alloc, self.rows, &self.index, row)?;
        if wrong && meets_table(self.rows, row, row.table_id) {
            Ok(Some(Key::Inlined(row.table_id, row.row_id, row.begin_snapshot)))
        } else {
            Ok(None)
        }
    }
}

/// The first row of those in the catalogue itself, which a kept snapshot sees with their table, that is wrong: its cells
/// can't be read, are too large, or have a field id that isn't below the table's next one; its id isn't below the table's
/// next row id; or a column that a kept snapshot sees with it can't hold its cell.
fn first_wrong_inlined(alloc: Global, rows: &CatRows) -> Result<Option<Key>, NoMemory>
    requires history { Holds (IsSnapshotBad (tables_of rows.now)) }
    requires intervals { Holds (IsIntervalBad (tables_of rows.now)) }
    ensures { IfOk result (FirstBad (AtKept (spec.IsInlinedBad (tables_of rows.now)) (tables_of rows.now))) }
{
    // That snapshots and tables rise is what the proof takes of them.
    let _snapshots = rows.snapshot();
    let _tables = rows.table();
    let index = index_of(alloc, rows.column())?;
    first_checked(alloc, &WrongInlined { rows, index }, rows.inlined_row())
}

/// The first bad row of the rule about inlined rows: their cells and ids, and so many at most at a begin.
pub fn first_bad_inlined(alloc: Global, rows: &CatRows) -> Result<Option<Key>, NoMemory>
    requires history { Holds (IsSnapshotBad (tables_of rows.now)) }
    requires intervals { Holds (IsIntervalBad (tables_of rows.now)) }
    ensures { IfOk result (FirstBad (spec.AreInlinedBad (tables_of rows.now))) }
{
    let wrong = first_wrong_inlined(alloc, rows)?;
    let crowded = first_crowded_inlined(alloc, rows)?;
    Ok(sooner(wrong, crowded))
}
