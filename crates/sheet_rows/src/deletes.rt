ghost use Rattle.std.specs.Prelude.{◌≡◌, IfOk};
ghost use Rattle.std.specs.List.{filter_map, list_all};
ghost use Rattle.std.specs.Option.{option_copied, option_map};
ghost use Rattle.field_map.specs.Laid as laid;
ghost use Rattle.sheet_rows.specs.Live as spec;

use crate::ids::{are_numbers, number_in};
use field_map::place_of;
use lake_types::{NoMemory, Sheet, SheetColumn, Value};
use std::alloc::Global;

/// The fields of a delete file: the path of the data file, and places in it.
const PATH_FIELD: u32 = 1;

const PLACE_FIELD: u32 = 2;

fn column_of(sheet: &[SheetColumn], field: u32) -> Option<&SheetColumn>
    ensures { option_copied result ≡ laid.column_of sheet.now field }
{
    let place = place_of(sheet, field)?;
    sheet.get(place)
}

fn is_text(path: &str, cell: &Value) -> bool
    ensures { result ≡ spec.is_text path.now cell.now }
{
    match cell {
        Value::Text(text) => text.as_str() == path,
        _ => false,
    }
}

fn are_texts(path: &str, cells: &[Value]) -> bool
    ensures { result ≡ list_all (spec.is_text path.now) cells.now }
{
    cells.iter().all(|cell| is_text(path, cell))
}

fn names_only(path: &str, column: Option<&SheetColumn>) -> bool
    ensures { result ≡ spec.names_only path.now (option_copied column.entry) }
{
    match column {
        None => false,
        Some(column) => are_texts(path, column.cells.as_slice()),
    }
}

/// Whether numbers rise, and lie below a limit.
fn rise_below(limit: u64, places: &[u64]) -> bool
    ensures { result ≡ spec.rise_within 0 limit places.now }
{
    let mut least = 0u64;
    for place in places {
        if *place < least || limit <= *place {
            return false;
        }
        least = *place + 1;
    }
    true
}

#[tactic(auto, using(crate::proofs::DeleteLemmas::more))]
fn numbers_in(alloc: Global, cells: &[Value]) -> Result<Vec<u64>, NoMemory>
    ensures { IfOk result (λ made. made.items ≡ filter_map spec.number_in cells.now) }
{
    let mut made = Vec::new(alloc);
    for cell in cells {
        if let Some(number) = number_in(cell) {
            made.push(number)?;
        }
    }
    Ok(made)
}

/// The places of the column, where all of its cells are numbers that rise below a limit.
fn places_in(
    alloc: Global,
    limit: u64,
    column: Option<&SheetColumn>,
) -> Result<Option<Vec<u64>>, NoMemory>
    ensures { IfOk result (λ made. option_map (λ places. places.items) made
        ≡ spec.places_below limit (option_copied column.entry)) }
{
    let Some(column) = column else {
        return Ok(None);
    };
    let cells = column.cells.as_slice();
    if !are_numbers(cells) {
        return Ok(None);
    }
    let places = numbers_in(alloc, cells)?;
    if rise_below(limit, places.as_slice()) {
        Ok(Some(places))
    } else {
        Ok(None)
    }
}

/// The places that a delete file lists of a data file with this path and so many rows. None where the delete
/// file is damaged: it has another number of rows than the catalogue says, a row that names another path, or
/// places that don't rise below the data file's rows.
pub fn deleted_in(
    alloc: Global,
    path: &str,
    rows: u64,
    count: u64,
    sheet: &Sheet,
) -> Result<Option<Vec<u64>>, NoMemory>
    ensures { IfOk result (λ found. option_map (λ places. places.items) found
        ≡ spec.deleted_in (record { path = path.now; rows = rows; count = count }) sheet.now) }
{
    let columns = sheet.columns.as_slice();
    if sheet.rows != count || !names_only(path, column_of(columns, PATH_FIELD)) {
        return Ok(None);
    }
    places_in(alloc, rows, column_of(columns, PLACE_FIELD))
}
