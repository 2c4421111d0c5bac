ghost use Rattle.std.specs.Prelude.{◌≡◌, ◌≢◌, None, Some, IfErr, IfOk, OnOk};
ghost use Rattle.lake_model.specs.Plans as plan;
ghost use Rattle.lake_model.specs.Rows as spec;
ghost use Rattle.txn_buf.specs.Turns.{answer_of};
ghost use Rattle.txn_buf.specs.declared.no.TxnNo.TheVariants.{Memory};

use crate::no::TxnNo;
use lake_types::{Cell, CellValues, Column, Copied, NoMemory, Value, fits};
use std::alloc::Global;

/// What a cell stands for in its column.
fn given<'a>(column: &'a Column, cell: &'a Cell) -> &'a Value
    ensures { result.now ≡ spec.given column.now cell.now }
{
    match cell {
        Cell::Given(value) => value,
        Cell::Default => &column.default_value,
    }
}

/// What a cell is refused for in its column.
fn cell_fault(alloc: Global, column: &Column, cell: &Cell) -> Result<(), TxnNo>
    ensures ok { OnOk result (spec.cell_fault column.now cell.now ≡ None) }
    ensures refused { IfErr result (λ why. why ≢ Memory → spec.cell_fault column.now cell.now ≡ Some (answer_of
        why)) }
{
    let value = given(column, cell);
    if !fits(value, column.ty) {
        return Err(TxnNo::WrongType {
            name: column.name.copy(alloc)?,
        });
    }
    if matches!(value, Value::Null) && !column.nulls {
        return Err(TxnNo::NotNull {
            name: column.name.copy(alloc)?,
        });
    }
    Ok(())
}

/// What the first cell with a fault is refused for, each in the column of its place.
fn cells_fault(alloc: Global, columns: &[Column], row: &[Cell]) -> Result<(), TxnNo>
    ensures ok { OnOk result (spec.cells_fault columns.now row.now ≡ None) }
    ensures refused { IfErr result (λ why. why ≢ Memory → spec.cells_fault columns.now row.now ≡ Some (answer_of
        why)) }
{
    let mut rest = row;
    for column in columns {
        let [cell, more @ ..] = rest else {
            return Ok(());
        };
        match cell_fault(alloc, column, cell) {
            Ok(()) => {}
            Err(no) => return Err(no),
        }
        rest = more;
    }
    Ok(())
}

/// What a row is refused for.
pub fn row_fault(alloc: Global, columns: &[Column], row: &[Cell]) -> Result<(), TxnNo>
    ensures ok { OnOk result (spec.row_fault columns.now row.now ≡ None) }
    ensures refused { IfErr result (λ why. why ≢ Memory → spec.row_fault columns.now row.now ≡ Some (answer_of
        why)) }
{
    if columns.len() != row.len() {
        return Err(TxnNo::Arity {
            want: columns.len() as u64,
            got: row.len() as u64,
        });
    }
    cells_fault(alloc, columns, row)
}

/// The cells of a row by their columns' field ids.
pub fn row_cells(alloc: Global, columns: &[Column], row: &[Cell]) -> Result<CellValues, NoMemory>
    ensures { IfOk result (λ cells. cells ≡ spec.cells_of columns.now row.now) }
{
    let mut cells = CellValues::new(alloc);
    let mut rest = row;
    for column in columns {
        let [cell, more @ ..] = rest else {
            return Ok(cells);
        };
        let value = given(column, cell).copy(alloc)?;
        cells.push((column.field, value))?;
        rest = more;
    }
    Ok(cells)
}
