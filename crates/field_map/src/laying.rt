ghost use Rattle.std.specs.Prelude.{◌≡◌, ◌≢◌, ◌<◌, length, map, None, Some, IfOk, IfErr, IfSome};
ghost use Rattle.lake_types.specs.Cells.{laid_cells};
ghost use Rattle.field_map.specs.Laid as spec;
ghost use Rattle.field_map.specs.Steps as steps;
ghost use Rattle.field_map.specs.declared.fault.LayFault.TheVariants.{Memory};

use crate::fault::LayFault;
use lake_types::{
    CellValues, ColType, Column, Copied, Row, RowList, Sheet, SheetColumn, Value, promotes,
};
use std::alloc::{AllocError, Global};

/// The rows of a sheet, laid into the columns by field id, with ids counted from 0. A row has a cell for each
/// column, in the columns' order: the cell of the sheet's column with that field id, as it stands, or the column's
/// initial default where the sheet has no such column, or a column without a cell in that row.
///
/// `LayFault::Kind` tells the first column in order whose field has values of another type in the sheet, one that
/// doesn't promote to the column's. Each cell of the rows is copied once.
pub fn lay(alloc: Global, sheet: &Sheet, columns: &[Column]) -> Result<RowList, LayFault>
    ensures rows { IfOk result (λ rows. rows ≡ spec.laid columns.now sheet.now) }
    ensures agrees { IfOk result (λ _. spec.first_fault sheet.now.columns columns.now ≡ None) }
    ensures kind { IfErr result (λ fault. fault ≢ Memory → spec.first_fault sheet.now.columns columns.now ≡ Some fault) }
{
    if let Some(fault) = first_fault(sheet.columns.as_slice(), columns) {
        return Err(fault);
    }
    let rows = laid_rows(alloc, sheet, columns)?;
    Ok(rows)
}

/// The fault of the first column in order that has one.
pub fn first_fault(sheet: &[SheetColumn], columns: &[Column]) -> Option<LayFault>
    ensures { result ≡ spec.first_fault sheet.now columns.now }
{
    for column in columns {
        let fault = fault_of(sheet, column);
        if fault.is_some() {
            return fault;
        }
    }
    None
}

fn fault_of(sheet: &[SheetColumn], column: &Column) -> Option<LayFault>
    ensures { result ≡ spec.fault_of sheet.now column.now }
{
    let place = place_of(sheet, column.field)?;
    let have = sheet[place].ty;
    if agrees(have, column.ty) {
        return None;
    }
    Some(LayFault::Kind {
        field: column.field,
        have,
        want: column.ty,
    })
}

fn agrees(have: ColType, want: ColType) -> bool
    ensures { result ≡ spec.agrees have want }
{
    have == want || promotes(have, want)
}

/// The place of the sheet's column of a field.
#[tactic(auto, using(crate::proofs::LayLemmas::place_found))]
pub fn place_of(sheet: &[SheetColumn], field: u32) -> Option<usize>
    ensures column { spec.column_at sheet.now result ≡ spec.column_of sheet.now field }
    ensures within { IfSome result (λ place. place < length sheet.now) }
{
    for place in 0..sheet.len() {
        if sheet[place].field == Some(field) {
            return Some(place);
        }
    }
    None
}

fn laid_rows(alloc: Global, sheet: &Sheet, columns: &[Column]) -> Result<RowList, AllocError>
    ensures { IfOk result (λ rows. rows ≡ spec.laid columns.now sheet.now) }
{
    let places = places_of(alloc, sheet.columns.as_slice(), columns)?;
    let mut rows = RowList::new(alloc);
    for id in 0..sheet.rows {
        let cells = row_cells(
            alloc,
            sheet.columns.as_slice(),
            columns,
            places.as_slice(),
            id,
        )?;
        rows.push(Row { id, cells })?;
    }
    Ok(rows)
}

/// Where the sheet has each column, so that this is looked up once and not for each row.
pub fn places_of(
    alloc: Global,
    sheet: &[SheetColumn],
    columns: &[Column],
) -> Result<Vec<Option<usize>>, AllocError>
    ensures { IfOk result (λ places. spec.ArePlaces sheet.now columns.now places.items) }
{
    let mut places = Vec::new(alloc);
    for column in columns {
        places.push(place_of(sheet, column.field))?;
    }
    Ok(places)
}

/// The cells of a row, laid into the columns.
fn row_cells(
    alloc: Global,
    sheet: &[SheetColumn],
    columns: &[Column],
    places: &[Option<usize>],
    row: u64,
) -> Result<CellValues, AllocError>
    requires { spec.ArePlaces sheet.now columns.now places.now }
    ensures { IfOk result (λ cells. cells ≡ laid_cells columns.now (spec.found_cells sheet.now columns.now row)) }
{
    cells_of(alloc, sheet, columns, places, row)
}

/// The same cells, by the steps of each column.
pub fn cells_of(
    alloc: Global,
    sheet: &[SheetColumn],
    columns: &[Column],
    places: &[Option<usize>],
    row: u64,
) -> Result<CellValues, AllocError>
    requires { spec.ArePlaces sheet.now columns.now places.now }
    ensures { IfOk result (λ cells. cells ≡ map (steps.cell sheet.now row) columns.now) }
{
    let mut cells = CellValues::new(alloc);
    for at in 0..columns.len() {
        let column = &columns[at];
        let value = value_at(sheet, places[at], row, &column.initial);
        cells.push((column.field, value.copy(alloc)?))?;
    }
    Ok(cells)
}

/// What stands in a row of the sheet's column at a place; else `initial`.
pub fn value_at<'a>(
    sheet: &'a [SheetColumn],
    place: Option<usize>,
    row: u64,
    initial: &'a Value,
) -> &'a Value
    ensures { result.now ≡ steps.value_at (spec.column_at sheet.now place) row initial.now }
{
    let Some(place) = place else {
        return initial;
    };
    let Some(column) = sheet.get(place) else {
        return initial;
    };
    match column.cells.as_slice().get(row as usize) {
        Some(value) => value,
        None => initial,
    }
}
