ghost use Rattle.std.specs.Prelude.{◌≡◌, ◌++◌, [], List, IfOk, IfSome, OnOk};
ghost use Rattle.std.specs.List.{AllByRecursion, cons_option};
ghost use Rattle.std.specs.Option.{option_copied};
ghost use Rattle.cat_rows.specs.declared.inlined.InlinedRow.{InlinedRow};
ghost use Rattle.lake_types.specs.Cells.{laid_cell, laid_cells};
ghost use Rattle.cat_view.specs.Groups.{rows_at};
ghost use Rattle.cat_view.specs.Inlined.{AreInlined, SpellsCells};
ghost use Rattle.cat_view.specs.Sight.{IsInlined};

use crate::groups::row_at;
use cat_rows::InlinedRow;
use inline_rows::{CellsFault, decode_cells};
use lake_types::{CellValues, Column, Copied, NoMemory, Row, Value, cell_at};
use std::alloc::{AllocError, Global};
use std::sync::Arc;

/// What a row has in a column; the column's initial default where it lacks that.
fn laid_value<'a>(column: &'a Column, cells: &'a [(u32, Value)]) -> &'a Value
    ensures { result.now ≡ (laid_cell cells.now column.now).1 }
{
    match cell_at(cells, column.field) {
        Some(value) => value,
        None => &column.initial,
    }
}

/// The cells, laid into columns.
fn laid(alloc: Global, columns: &[Column], cells: &[(u32, Value)]) -> Result<CellValues, NoMemory>
    ensures { IfOk result (λ laid. laid ≡ laid_cells columns.now cells.now) }
{
    let mut laid = CellValues::new(alloc);
    for column in columns {
        laid.push((column.field, laid_value(column, cells).copy(alloc)?))?;
    }
    Ok(laid)
}

/// The row whose cells an inlined row spells.
fn read_inlined(alloc: Global, row: &InlinedRow, columns: &[Column]) -> Result<Row, NoMemory>
    requires { SpellsCells row.now }
    ensures { IfOk result (IsInlined columns.now row.now) }
{
    match decode_cells(alloc, row.cells.as_slice()) {
        Ok(cells) => Ok(Row {
            id: row.row_id,
            cells: laid(alloc, columns, cells.as_slice())?,
        }),
        Err(CellsFault::Memory) => Err(AllocError),
        Err(CellsFault::BadCells { .. }) => unreachable!(),
    }
}

/// Adds the row that an inlined row spells, where there is one.
#[tactic(auto, using(crate::proofs::InlinedLemmas::one_inlined))]
fn add_inlined(
    alloc: Global,
    made: &mut Vec<Arc<Row>>,
    row: Option<&InlinedRow>,
    columns: &[Column],
) -> Result<(), NoMemory>
    requires { IfSome (option_copied row) SpellsCells }
    ensures { OnOk result ((rows : List InlinedRow) → AreInlined columns.now rows made.old.items → AreInlined
        columns.now (rows ++ cons_option (option_copied row.entry) []) made.new.items) }
{
    let Some(row) = row else {
        return Ok(());
    };
    let read = read_inlined(alloc, row, columns)?;
    let shared = Arc::new(alloc, read)?;
    made.push(shared)?;
    Ok(())
}

/// The rows that the inlined rows at some places spell.
#[tactic(auto, using(crate::proofs::PlaceLemmas::row_has))]
pub fn inlined_at(
    alloc: Global,
    rows: &[InlinedRow],
    places: &[usize],
    columns: &[Column],
) -> Result<Vec<Arc<Row>>, NoMemory>
    requires { AllByRecursion SpellsCells (rows_at rows.now places.now) }
    ensures { IfOk result (λ made. AreInlined columns.now (rows_at rows.now places.now) made.items) }
{
    let mut made = Vec::new(alloc);
    for at in 0..places.len() {
        add_inlined(alloc, &mut made, row_at(rows, places, at), columns)?;
    }
    Ok(made)
}
