ghost use Rattle.std.specs.Prelude.{◌≡◌, ◌&&◌, ◌↔◌, nat_le, IfOk, IsTrue, true};
ghost use Rattle.std.specs.List.{AllByRecursion};
ghost use Rattle.cat_tables.specs.Validity.{is_before, is_visible, visible_at};
ghost use Rattle.cat_rows.specs.Batches.{tables_of};
ghost use Rattle.cat_rows.specs.Seen.{seen_at};
ghost use Rattle.cat_rows.specs.Validities as validities;
ghost use Rattle.cat_rules.specs.EachKept.{SeesTable};
ghost use Rattle.cat_view.specs.Columns.{SpellsColumn};
ghost use Rattle.cat_view.specs.Held.{IsHeld, held_in};
ghost use Rattle.cat_view.specs.Inlined.{SpellsCells};
ghost use Rattle.cat_view.specs.Reading.{CanBeSeen};
ghost use Rattle.cat_core.specs.Readable.{IsColumnRead, IsCounted, IsDataHeld, IsDeleteHeld, IsInlinedRead};

use cat_rows::{CatRows, ColumnRow, DataFileRow, DeleteFileRow, InlinedRow, TableRow};
use cat_tables::find_row;
use cat_texts::{ReadTextNo, read_column};
use cat_view::HeldFiles;
use file_disk::Held;
use inline_rows::{CellsFault, decode_cells};
use lake_types::{NoMemory, Words};
use std::alloc::{AllocError, Global};

/// Whether a snapshot sees a row that begins and ends there.
fn is_seen(begin: u64, end: Option<u64>, snapshot: u64) -> bool
    ensures { result ≡ (nat_le begin snapshot && is_before snapshot end) }
{
    begin <= snapshot && cat_tables::is_before(snapshot, end)
}

/// Whether a snapshot sees the table of an id.
fn sees_table(rows: &CatRows, table: u64, snapshot: u64) -> bool
    ensures { IsTrue result ↔ SeesTable (seen_at snapshot (tables_of rows.now)) table }
{
    match find_row(rows.table(), &table) {
        Some(row) => is_seen(row.begin_snapshot, row.end_snapshot, snapshot),
        None => false,
    }
}

/// Whether a row spells a column.
fn spells_column(alloc: Global, row: &ColumnRow) -> Result<bool, NoMemory>
    ensures { IfOk result (λ can. IsTrue can ↔ SpellsColumn row.now) }
{
    match read_column(alloc, row) {
        Ok(_) => Ok(true),
        Err(ReadTextNo::BadText) => Ok(false),
        Err(ReadTextNo::Memory) => Err(AllocError),
    }
}

/// Whether the bytes of an inlined row spell cells.
fn spells_cells(alloc: Global, row: &InlinedRow) -> Result<bool, NoMemory>
    ensures { IfOk result (λ can. IsTrue can ↔ SpellsCells row.now) }
{
    match decode_cells(alloc, row.cells.as_slice()) {
        Ok(_) => Ok(true),
        Err(CellsFault::BadCells { .. }) => Ok(false),
        Err(CellsFault::Memory) => Err(AllocError),
    }
}

/// Whether a column is spelled, if a snapshot sees it and its table.
fn is_column_read(
    alloc: Global,
    rows: &CatRows,
    row: &ColumnRow,
    snapshot: u64,
) -> Result<bool, NoMemory>
    ensures { IfOk result (λ can. IsTrue can
        ↔ (is_visible validities.column_validity snapshot row.now ≡ true
        → IsColumnRead (seen_at snapshot (tables_of rows.now)) row.now)) }
{
    if !is_seen(row.begin_snapshot, row.end_snapshot, snapshot) {
        return Ok(true);
    }
    if !sees_table(rows, row.table_id, snapshot) {
        return Ok(true);
    }
    spells_column(alloc, row)
}

/// Whether the cells of an inlined row are spelled, if a snapshot sees it and its table.
fn is_inlined_read(
    alloc: Global,
    rows: &CatRows,
    row: &InlinedRow,
    snapshot: u64,
) -> Result<bool, NoMemory>
    ensures { IfOk result (λ can. IsTrue can
        ↔ (is_visible validities.inlined_row_validity snapshot row.now ≡ true
        → IsInlinedRead (seen_at snapshot (tables_of rows.now)) row.now)) }
{
    if !is_seen(row.begin_snapshot, row.end_snapshot, snapshot) {
        return Ok(true);
    }
    if !sees_table(rows, row.table_id, snapshot) {
        return Ok(true);
    }
    spells_cells(alloc, row)
}

/// Whether a table has statistics, if a snapshot sees it.
fn is_counted(rows: &CatRows, row: &TableRow, snapshot: u64) -> bool
    ensures { IsTrue result ↔ (is_visible validities.table_validity snapshot row.now ≡ true
        → IsCounted (tables_of rows.now) row.now) }
{
    if !is_seen(row.begin_snapshot, row.end_snapshot, snapshot) {
        return true;
    }
    match find_row(rows.table_stats(), &row.table_id) {
        Some(stats) => stats.next_field_id <= u64::from(u32::MAX),
        None => false,
    }
}

/// Whether a file of a name is held, if a snapshot sees the row that names it.
fn is_held<F: Held>(held: &HeldFiles<F>, path: &Words, seen: bool) -> bool
    ensures { IsTrue result ↔ (seen ≡ true → IsHeld F.name (held_in held.now).rows path.now) }
{
    if !seen {
        return true;
    }
    match held.get(path) {
        Some(_) => true,
        None => false,
    }
}

/// Whether all tables that a snapshot sees have statistics.
fn are_tables_counted(rows: &CatRows, snapshot: u64) -> bool
    ensures { IsTrue result
        ↔ AllByRecursion (IsCounted (tables_of rows.now)) (seen_at snapshot (tables_of rows.now)).table }
{
    let mut rest = rows.table();
    while let [row, more @ ..] = rest {
        if !is_counted(rows, row, snapshot) {
            return false;
        }
        rest = more;
    }
    true
}

/// Whether all columns of the tables that a snapshot sees are spelled.
fn are_columns_read(alloc: Global, rows: &CatRows, snapshot: u64) -> Result<bool, NoMemory>
    ensures { IfOk result (λ can. IsTrue can
        ↔ AllByRecursion (IsColumnRead (seen_at snapshot (tables_of rows.now)))
        (seen_at snapshot (tables_of rows.now)).column) }
{
    let mut rest = rows.column();
    while let [row, more @ ..] = rest {
        let can = is_column_read(alloc, rows, row, snapshot)?;
        if !can {
            return Ok(false);
        }
        rest = more;
    }
    Ok(true)
}

/// Whether the cells of all inlined rows of the tables that a snapshot sees are spelled.
fn are_inlined_read(alloc: Global, rows: &CatRows, snapshot: u64) -> Result<bool, NoMemory>
    ensures { IfOk result (λ can. IsTrue can
        ↔ AllByRecursion (IsInlinedRead (seen_at snapshot (tables_of rows.now)))
        (seen_at snapshot (tables_of rows.now)).inlined_row) }
{
    let mut rest = rows.inlined_row();
    while let [row, more @ ..] = rest {
        let can = is_inlined_read(alloc, rows, row, snapshot)?;
        if !can {
            return Ok(false);
        }
        rest = more;
    }
    Ok(true)
}

/// Whether all data files that a snapshot sees are held.
fn are_data_held<F: Held>(rows: &CatRows, held: &HeldFiles<F>, snapshot: u64) -> bool
    ensures { IsTrue result ↔ AllByRecursion (IsDataHeld F.name (held_in held.now).rows)
        (seen_at snapshot (tables_of rows.now)).data_file }
{
    let mut rest = rows.data_file();
    while let [row, more @ ..] = rest {
        let seen = is_seen(row.begin_snapshot, row.end_snapshot, snapshot);
        if !is_held(held, &row.path, seen) {
            return false;
        }
        rest = more;
    }
    true
}

/// Whether all delete files that a snapshot sees are held.
fn are_deletes_held<F: Held>(rows: &CatRows, held: &HeldFiles<F>, snapshot: u64) -> bool
    ensures { IsTrue result ↔ AllByRecursion (IsDeleteHeld F.name (held_in held.now).rows)
        (seen_at snapshot (tables_of rows.now)).delete_file }
{
    let mut rest = rows.delete_file();
    while let [row, more @ ..] = rest {
        let seen = is_seen(row.begin_snapshot, row.end_snapshot, snapshot);
        if !is_held(held, &row.path, seen) {
            return false;
        }
        rest = more;
    }
    true
}

/// Whether the version that a snapshot sees can be read: its columns and inlined rows are spelled, its tables
/// have statistics, and its files are held. It is so of each kept snapshot of a sane catalogue whose files are
/// held.
pub(crate) fn can_be_seen<F: Held>(
    alloc: Global,
    rows: &CatRows,
    held: &HeldFiles<F>,
    snapshot: u64,
) -> Result<bool, NoMemory>
    ensures { IfOk result (λ can. IsTrue can
        ↔ CanBeSeen F.name (held_in held.now).rows (tables_of rows.now) snapshot) }
{
    if !are_data_held(rows, held, snapshot) {
        return Ok(false);
    }
    if !are_deletes_held(rows, held, snapshot) {
        return Ok(false);
    }
    if !are_tables_counted(rows, snapshot) {
        return Ok(false);
    }
    let columns = are_columns_read(alloc, rows, snapshot)?;
    if !columns {
        return Ok(false);
    }
    let inlined = are_inlined_read(alloc, rows, snapshot)?;
    Ok(inlined)
}
