ghost use Rattle.std.specs.Prelude.{◌≡◌, ◌+◌, ◌≤◌, ◌==◌, List, None, All, IfOk, IfSome};
ghost use Rattle.std.specs.Option.{option_map};
ghost use Rattle.lake_types.specs.declared.limits.TheConstants.{MAX_COUNTER, MAX_FILE_ROWS};
ghost use Rattle.lake_types.specs.declared.value.Column.{Column as ColumnOf};
ghost use Rattle.sheet_rows.specs.Live as spec;
ghost use Rattle.sheet_rows.specs.Rows.{AreSmall, rows_of};
ghost use Rattle.sheet_rows.specs.Sheets as sheets;
ghost use Rattle.sheet_rows.specs.declared.places.Kept.TheVariants as kept;

use crate::ids::{RowIds, are_numbers, is_integer};
use crate::rows::SheetRows;
use crate::weights::sheet_weight;
use field_map::{first_fault, place_of};
use lake_types::limits::MAX_FIELD;
use lake_types::{Column, ColumnList, NoMemory, Sheet, SheetColumn};
use std::alloc::Global;

/// What the catalogue says of a data file.
#[derive(Clone, Copy, Debug)]
pub struct Stated {
    pub rows: u64,
    /// 16 for each row, and the weights of its cells.
    pub weight: u64,
    /// The id of the first row, where ids count; none where the file has a column of row ids.
    pub first_row: Option<u64>,
}

fn has_weight(sheet: &Sheet, weight: u64) -> bool
    ensures { result ≡ (sheets.sheet_weight sheet.now == weight) }
{
    match sheet_weight(sheet) {
        Some(total) => total == weight,
        None => false,
    }
}

fn is_as_stated(stated: &Stated, columns: &[Column], sheet: &Sheet) -> bool
    ensures { result ≡ spec.is_as_stated stated.now columns.now sheet.now }
{
    sheet.rows == stated.rows
        && (has_weight(sheet, stated.weight)
            && first_fault(sheet.columns.as_slice(), columns).is_none())
}

/// The column of row ids, where it is one of numbers.
fn told_ids(sheet: &Sheet) -> Option<RowIds>
    requires { All (sheets.HasCells sheet.now.rows) sheet.now.columns }
    ensures rows { (columns : List ColumnOf) → option_map (λ ids. rows_of ids kept.All columns sheet.now) result
        ≡ spec.laid_rows None columns sheet.now }
    ensures small { IfSome result (λ ids. AreSmall ids sheet.now.rows) }
{
    let columns = sheet.columns.as_slice();
    let at = place_of(columns, MAX_FIELD)?;
    let column = &columns[at];
    if is_integer(column.ty) && are_numbers(column.cells.as_slice()) {
        Some(RowIds::Column(at))
    } else {
        None
    }
}

/// Where the ids of a sheet's rows come from; none where a row has none.
fn row_ids(first_row: Option<u64>, sheet: &Sheet) -> Option<RowIds>
    requires cells { All (sheets.HasCells sheet.now.rows) sheet.now.columns }
    requires ids { IfSome first_row (λ first. first + sheet.now.rows ≤ MAX_COUNTER) }
    ensures rows { (columns : List ColumnOf) → option_map (λ ids. rows_of ids kept.All columns sheet.now) result
        ≡ spec.laid_rows first_row columns sheet.now }
    ensures small { IfSome result (λ ids. AreSmall ids sheet.now.rows) }
{
    match first_row {
        Some(first) => Some(RowIds::Start(first)),
        None => told_ids(sheet),
    }
}

/// The rows of a sheet with their ids, laid into a table's columns. None where the file is damaged: the sheet is
/// not as the catalogue says, or can't be laid, or a row has no id.
pub fn live_of(
    alloc: Global,
    sheet: Sheet,
    columns: ColumnList,
    stated: Stated,
) -> Result<Option<SheetRows>, NoMemory>
    requires cells { All (sheets.HasCells sheet.rows) sheet.columns }
    requires ids { IfSome stated.first_row (λ first. first + sheet.rows ≤ MAX_COUNTER) }
    ensures { IfOk result (λ rows. rows ≡ spec.live_of stated columns sheet) }
{
    if !is_as_stated(&stated, columns.as_slice(), &sheet) {
        return Ok(None);
    }
    let Some(ids) = row_ids(stated.first_row, &sheet) else {
        return Ok(None);
    };
    Ok(Some(SheetRows::of(alloc, sheet, columns, ids)?))
}
