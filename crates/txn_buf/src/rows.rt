ghost use Rattle.std.specs.Prelude.{◌≡◌, ◌≢◌, ◌-◌, ◌^◌, min, map, None, Some, unwrap_or, IfErr, IfOk, OnOk};
ghost use Rattle.lake_types.specs.Cells.{laid_cells, cell_at as cell_in};
ghost use Rattle.lake_types.specs.Weights.{row_weight};
ghost use Rattle.lake_model.specs.Rows as spec;
ghost use Rattle.txn_buf.specs.Turns.{answer_of};
ghost use Rattle.txn_buf.specs.declared.no.TxnNo.TheVariants.{Memory};

use crate::no::TxnNo;
use crate::row::{row_cells, row_fault};
use lake_types::{CellList, CellValues, Column, Listed, NoMemory, Value, cell_at, weight};
use std::alloc::Global;

/// What the first row with a fault is refused for.
pub fn rows_fault(alloc: Global, columns: &[Column], rows: &[CellList]) -> Result<(), TxnNo>
    ensures ok { OnOk result (spec.rows_fault columns.now rows.now ≡ None) }
    ensures refused { IfErr result (λ why. why ≢ Memory → spec.rows_fault columns.now rows.now ≡ Some (answer_of
        why)) }
{
    for row in rows {
        match row_fault(alloc, columns, row.as_slice()) {
            Ok(()) => {}
            Err(no) => return Err(no),
        }
    }
    Ok(())
}

/// The cells of rows by their columns' field ids.
pub fn rows_cells(
    alloc: Global,
    columns: &[Column],
    rows: &[CellList],
) -> Result<Listed<CellValues>, NoMemory>
    ensures { IfOk result (λ made. made ≡ map (spec.cells_of columns.now) rows.now) }
{
    let mut made = Listed::new(alloc);
    for row in rows {
        let cells = row_cells(alloc, columns, row.as_slice())?;
        made.push(cells)?;
    }
    Ok(made)
}

/// A cell laid into a column.
fn laid_value<'a>(column: &'a Column, cells: &'a [(u32, Value)]) -> &'a Value
    ensures { result.now ≡ unwrap_or (cell_in cells.now column.now.field) column.now.initial }
{
    match cell_at(cells, column.field) {
        Some(value) => value,
        None => &column.initial,
    }
}

/// How much a row weighs, laid into columns. It stays at its type's last value.
fn laid_weight(columns: &[Column], cells: &[(u32, Value)]) -> u64
    ensures { result ≡ min (row_weight (laid_cells columns.now cells.now)) (2 ^ 64 - 1) }
{
    let mut total = 16u64;
    for column in columns {
        total = total.saturating_add(weight(laid_value(column, cells)));
    }
    total
}

/// How much rows weigh, laid into columns. It stays at its type's last value.
pub fn rows_weight(columns: &[Column], rows: &[CellValues]) -> u64
    ensures { result ≡ min (spec.rows_weight (map (laid_cells columns.now) rows.now)) (2 ^ 64 - 1) }
{
    let mut total = 0u64;
    for row in rows {
        total = total.saturating_add(laid_weight(columns, row.as_slice()));
    }
    total
}
