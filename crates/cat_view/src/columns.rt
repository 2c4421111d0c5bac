ghost use Rattle.std.specs.Prelude.{◌≡◌, ◌≤◌, ◌<◌, nat_lt, List, IfOk, IfSome, OnOk, length};
ghost use Rattle.std.specs.List.{AllByRecursion, AllZip, cons_option, prefix_len};
ghost use Rattle.std.specs.Option.{option_copied};
ghost use Rattle.cat_rows.specs.declared.schemas.ColumnRow.{ColumnRow};
ghost use Rattle.cat_texts.specs.Spelled.{IsColumnOf};
ghost use Rattle.cat_view.specs.Columns as spec;
ghost use Rattle.cat_view.specs.Groups.{rows_at};
ghost use Rattle.cat_view.specs.Named.{put_by};

use crate::groups::row_at;
use cat_rows::ColumnRow;
use cat_texts::{ReadTextNo, read_column};
use lake_types::{Column, ColumnList, NoMemory};
use std::alloc::{AllocError, Global};

/// A column, with the number by which its table's columns are ordered.
#[derive(Drop)]
pub struct PlacedColumn {
    pub order: u64,
    pub column: Column,
}

/// How many columns come before a number.
fn count_before(placed: &[PlacedColumn], order: u64) -> usize
    ensures count { result ≡ prefix_len (λ p. nat_lt (spec.order_of p) order) placed.now }
    ensures within { result ≤ length placed.now }
{
    placed.iter().take_while(|p| p.order < order).count()
}

fn put_column(placed: &mut Vec<PlacedColumn>, new: PlacedColumn) -> Result<(), NoMemory>
    ensures { OnOk result (placed.new.items ≡ put_by spec.order_of new placed.old.items) }
{
    let at = count_before(placed.as_slice(), new.order);
    placed.insert(at, new)?;
    Ok(())
}

/// The column of a row that spells one.
fn column_of(alloc: Global, row: &ColumnRow) -> Result<Column, NoMemory>
    requires { spec.SpellsColumn row.now }
    ensures { IfOk result (IsColumnOf row.now) }
{
    match read_column(alloc, row) {
        Ok(column) => Ok(column),
        Err(ReadTextNo::Memory) => Err(AllocError),
        Err(ReadTextNo::BadText) => unreachable!(),
    }
}

/// Puts the column of a row among those of later rows, where there is a row.
#[tactic(auto, using(crate::proofs::ColumnLemmas::one_column))]
fn add_column(
    alloc: Global,
    placed: &mut Vec<PlacedColumn>,
    row: Option<&ColumnRow>,
) -> Result<(), NoMemory>
    requires { IfSome (option_copied row) spec.SpellsColumn }
    ensures { OnOk result ((rows : List ColumnRow) → spec.ArePlaced rows placed.old.items → spec.ArePlaced
        (cons_option (option_copied row.entry) rows) placed.new.items) }
{
    let Some(row) = row else {
        return Ok(());
    };
    let column = column_of(alloc, row)?;
    let order = row.column_order;
    put_column(placed, PlacedColumn { order, column })
}

/// The columns that the rows at some places spell, in the columns' order.
#[tactic(auto, using(crate::proofs::PlaceLemmas::row_has))]
fn placed_columns(
    alloc: Global,
    rows: &[ColumnRow],
    places: &[usize],
) -> Result<Vec<PlacedColumn>, NoMemory>
    requires { AllByRecursion spec.SpellsColumn (rows_at rows.now places.now) }
    ensures { IfOk result (λ placed. spec.ArePlaced (rows_at rows.now places.now) placed.items) }
{
    let mut placed = Vec::new(alloc);
    let mut at = places.len();
    while at > 0 {
        at -= 1;
        add_column(alloc, &mut placed, row_at(rows, places, at))?;
    }
    Ok(placed)
}

fn without_orders(alloc: Global, placed: Vec<PlacedColumn>) -> Result<ColumnList, NoMemory>
    ensures { IfOk result (λ columns. columns ≡ spec.columns_in placed.items) }
{
    let mut columns = ColumnList::new(alloc);
    for PlacedColumn { order: _, column } in placed {
        columns.push(column)?;
    }
    Ok(columns)
}

/// The columns that the rows at some places spell, in the columns' order.
#[tactic(auto, using(crate::proofs::ColumnLemmas::without_orders))]
pub fn columns_at(
    alloc: Global,
    rows: &[ColumnRow],
    places: &[usize],
) -> Result<ColumnList, NoMemory>
    requires { AllByRecursion spec.SpellsColumn (rows_at rows.now places.now) }
    ensures { IfOk result (λ columns. AllZip IsColumnOf (spec.in_order (rows_at rows.now places.now)) columns) }
{
    let placed = placed_columns(alloc, rows, places)?;
    without_orders(alloc, placed)
}
