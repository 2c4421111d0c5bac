//! Which sheets can be written.

ghost use Rattle.std.specs.Prelude.{◌≡◌, ◌≢◌, ◌↔◌, ◌≤◌, ◌-◌, ◌^◌, min, All, AllPairs, IfSome, IsTrue, length};
ghost use Rattle.std.specs.List.{sum_by};
ghost use Rattle.lake_types.specs.Weights as weights;
ghost use Rattle.lake_types.specs.declared.value.Value.TheVariants.{Null};
ghost use Rattle.pq_file.specs.Writable.{HasCells, IsCell, IsColumn, IsShort, IsWritable, OtherField, column_weight};

use lake_types::limits::{MAX_CELL_BYTES, MAX_FIELD, MAX_FILE_ROWS, MAX_NAME_BYTES};
use lake_types::{ColType, Sheet, SheetColumn, Value, fits, weight};
use pq_meta::limits::MAX_FILE_COLUMNS;

/// The greatest weight of all cells together.
pub const MAX_SHEET_WEIGHT: u64 = 1_073_741_824;

fn is_short(cell: &Value) -> bool
    ensures { IsTrue result ↔ IsShort cell.now }
{
    match cell {
        Value::Text(text) => text.as_str().len() <= MAX_CELL_BYTES,
        Value::Bytes(bytes) => bytes.as_slice().len() <= MAX_CELL_BYTES,
        _ => true,
    }
}

fn is_cell(ty: ColType, cell: &Value) -> bool
    ensures { IsTrue result ↔ IsCell ty cell.now }
{
    is_short(cell) && fits(cell, ty)
}

fn are_cells(ty: ColType, cells: &[Value]) -> bool
    ensures { IsTrue result ↔ All (IsCell ty) cells.now }
{
    cells.iter().all(|cell| is_cell(ty, cell))
}

fn has_no_null(cells: &[Value]) -> bool
    ensures { IsTrue result ↔ All (λ cell. cell ≢ Null) cells.now }
{
    cells.iter().all(|cell| !matches!(cell, Value::Null))
}

fn is_field(field: Option<u32>) -> bool
    ensures { IsTrue result ↔ IfSome field (λ id. id ≤ MAX_FIELD) }
{
    match field {
        Some(id) => id <= MAX_FIELD,
        None => true,
    }
}

fn is_column(column: &SheetColumn) -> bool
    ensures { IsTrue result ↔ IsColumn column.now }
{
    column.name.as_str().len() <= MAX_NAME_BYTES
        && is_field(column.field)
        && are_cells(column.ty, column.cells.as_slice())
        && (column.optional || has_no_null(column.cells.as_slice()))
}

fn are_columns(columns: &[SheetColumn]) -> bool
    ensures { IsTrue result ↔ All IsColumn columns.now }
{
    columns.iter().all(is_column)
}

fn have_cells(rows: u64, columns: &[SheetColumn]) -> bool
    ensures { IsTrue result ↔ All (HasCells rows) columns.now }
{
    columns
        .iter()
        .all(|column| column.cells.len() as u64 == rows)
}

fn is_other(a: &SheetColumn, b: &SheetColumn) -> bool
    ensures { IsTrue result ↔ OtherField a.now b.now }
{
    a.field.is_none() || a.field != b.field
}

/// Whether no column behind the first is known by the first one's field id.
fn first_differs(first: &SheetColumn, others: &[SheetColumn]) -> bool
    ensures { IsTrue result ↔ All (OtherField first.now) others.now }
{
    others.iter().all(|other| is_other(first, other))
}

fn fields_differ(columns: &[SheetColumn]) -> bool
    ensures { IsTrue result ↔ AllPairs OtherField columns.now }
{
    for (at, column) in columns.iter().enumerate() {
        let (_, others) = columns.split_at(at + 1);
        if !first_differs(column, others) {
            return false;
        }
    }
    true
}

/// The weight of a column's cells. It stays at its type's last value.
fn cells_weight(cells: &[Value]) -> u64
    ensures { result ≡ min (sum_by weights.weight cells.now) (2 ^ 64 - 1) }
{
    let mut total = 0u64;
    for cell in cells {
        total = total.saturating_add(weight(cell));
    }
    total
}

/// The weight of the cells of all columns. It stays at its type's last value.
fn total_weight(columns: &[SheetColumn]) -> u64
    ensures { result ≡ min (sum_by column_weight columns.now) (2 ^ 64 - 1) }
{
    let mut total = 0u64;
    for column in columns {
        total = total.saturating_add(cells_weight(column.cells.as_slice()));
    }
    total
}

/// Whether there are few enough rows and columns, and the cells are light enough.
fn is_small(rows: u64, columns: &[SheetColumn]) -> bool
    ensures { IsTrue result ↔ ((rows ≤ MAX_FILE_ROWS) × (length columns.now ≤ MAX_FILE_COLUMNS) × (sum_by column_weight columns.now ≤ MAX_SHEET_WEIGHT)) }
{
    rows <= MAX_FILE_ROWS
        && columns.len() <= MAX_FILE_COLUMNS
        && total_weight(columns) <= MAX_SHEET_WEIGHT
}

/// Whether each column can be written, and all of them together.
fn columns_fit(rows: u64, columns: &[SheetColumn]) -> bool
    ensures { IsTrue result ↔ (All (HasCells rows) columns.now × All IsColumn columns.now × AllPairs OtherField columns.now) }
{
    have_cells(rows, columns) && are_columns(columns) && fields_differ(columns)
}

/// Whether [`write_file`](crate::write_file) may be given this sheet.
pub fn is_writable(sheet: &Sheet) -> bool
    ensures exact { IsTrue result ↔ IsWritable sheet.now }
{
    let columns = sheet.columns.as_slice();
    is_small(sheet.rows, columns) && columns_fit(sheet.rows, columns)
}
