ghost use Rattle.std.specs.Prelude.{◌≡◌, ◌<◌, ◌^◌, ◌++◌, [], All, IfOk, OnOk, map, pos};
ghost use Rattle.lake_types.specs.declared.value.Value.TheVariants as value;
ghost use Rattle.sheet_rows.specs.Sheets as spec;

use lake_types::limits::MAX_FIELD;
use lake_types::{
    CellValues, ColType, Column, Copied, NoMemory, Sheet, SheetColumn, SheetColumns, Value,
    ValueList, Words, cell_at,
};
use std::alloc::Global;

/// The name of the column of row ids in a file.
const ID_NAME: &str = "_ducklake_internal_row_id";

/// A row's cell in a column; the initial default where it lacks one.
fn file_cell(alloc: Global, column: &Column, cells: &[(u32, Value)]) -> Result<Value, NoMemory>
    ensures { IfOk result (λ v. v ≡ spec.file_cell column.now cells.now) }
{
    match cell_at(cells, column.field) {
        Some(value) => value.copy(alloc),
        None => column.initial.copy(alloc),
    }
}

/// The column of a file that stands for a table's column, without cells.
pub fn empty_column(alloc: Global, column: &Column) -> Result<SheetColumn, NoMemory>
    ensures { IfOk result (λ made. made ≡ spec.file_column [] column.now) }
{
    Ok(SheetColumn {
        field: Some(column.field),
        name: column.name.copy(alloc)?,
        ty: column.ty,
        optional: true,
        cells: ValueList::new(alloc),
    })
}

/// Adds the cells that some rows have in a table's column, which are its initial default where a row lacks one. Each
/// is copied once.
pub fn add_cells(
    alloc: Global,
    made: &mut SheetColumn,
    column: &Column,
    rows: &[CellValues],
) -> Result<(), NoMemory>
    ensures { OnOk result (made.new ≡ record made.old {
      cells = made.old.cells ++ map (spec.file_cell column.now)
          rows.now;
    }) }
{
    for row in rows {
        made.cells.push(file_cell(alloc, column, row.as_slice())?)?;
    }
    Ok(())
}

fn file_column(alloc: Global, column: &Column, rows: &[CellValues]) -> Result<SheetColumn, NoMemory>
    ensures { IfOk result (λ made. made ≡ spec.file_column rows.now column.now) }
{
    let mut made = empty_column(alloc, column)?;
    add_cells(alloc, &mut made, column, rows)?;
    Ok(made)
}

fn file_columns(
    alloc: Global,
    columns: &[Column],
    rows: &[CellValues],
) -> Result<SheetColumns, NoMemory>
    ensures { IfOk result (λ made. made ≡ map (spec.file_column rows.now) columns.now) }
{
    let mut made = SheetColumns::new(alloc);
    for column in columns {
        made.push(file_column(alloc, column, rows)?)?;
    }
    Ok(made)
}

/// The sheet of a table's rows: its columns in order, each with a cell for each row, which is the initial default
/// where the row lacks one. Each cell is copied once.
pub fn sheet_of(alloc: Global, columns: &[Column], rows: &[CellValues]) -> Result<Sheet, NoMemory>
    ensures { IfOk result (λ sheet. sheet ≡ spec.sheet_of columns.now rows.now) }
{
    Ok(Sheet {
        columns: file_columns(alloc, columns, rows)?,
        rows: rows.len() as u64,
    })
}

/// The column of these row ids.
fn id_column(alloc: Global, ids: &[u64]) -> Result<SheetColumn, NoMemory>
    requires { All (λ id. id < 2 ^ 63) ids.now }
    ensures { IfOk result (λ made. made ≡ spec.id_column ids.now) }
{
    let mut cells = ValueList::new(alloc);
    for id in ids {
        cells.push(Value::Int(*id as i64))?;
    }
    Ok(SheetColumn {
        field: Some(MAX_FIELD),
        name: Words::of(alloc, ID_NAME)?,
        ty: ColType::Int64,
        optional: false,
        cells,
    })
}

/// The sheet of rows that keep their ids: a last column has the id of each row.
pub fn sheet_with_ids(
    alloc: Global,
    columns: &[Column],
    ids: &[u64],
    rows: &[CellValues],
) -> Result<Sheet, NoMemory>
    requires { All (λ id. id < 2 ^ 63) ids.now }
    ensures { IfOk result (λ sheet. sheet ≡ spec.sheet_with_ids columns.now ids.now rows.now) }
{
    let mut made = file_columns(alloc, columns, rows)?;
    made.push(id_column(alloc, ids)?)?;
    Ok(Sheet {
        columns: made,
        rows: rows.len() as u64,
    })
}
