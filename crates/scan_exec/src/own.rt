ghost use Rattle.std.specs.Prelude.{◌≡◌, ◌++◌, ◌∷◌, ◌+◌, [], length, IfSome, IfNone, OnOk};
ghost use Rattle.lake_types.specs.Cells.{cell_at as cell_in, laid_cells};
ghost use Rattle.lake_model.specs.Growth.{inserted_into, rows_for};
ghost use Rattle.scan_exec.specs.Own as spec;

use crate::choice::{Choice, push_chosen};
use lake_model::{Change, Ref, RowRef, is_ref};
use lake_types::{CellValues, Column, NoMemory, RowList, Value, cell_at};
use pred::Cells;
use std::alloc::{AllocError, Global};

/// A row that is laid into a table's columns.
#[derive(Clone, Copy)]
struct Laid<'a> {
    columns: &'a [Column],
    cells: &'a [(u32, Value)],
}

impl<'a> Cells for Laid<'a> {
    ghost cell = { λ r. cell_in (laid_cells r.columns.now r.cells.now) };

    fn cell(&self, field: u32) -> Option<&Value> {
        for column in self.columns {
            if column.field == field {
                return match cell_at(self.cells, field) {
                    Some(value) => Some(value),
                    None => Some(&column.initial),
                };
            }
        }
        None
    }
}

/// Where the rows go that a list inserts.
#[derive(Clone, Copy)]
pub struct Home<'a> {
    pub table: Ref,
    pub columns: &'a [Column],
    /// The id that the first of them gets.
    pub next_row: u64,
}

/// The rows that are told, and their references.
#[derive(Drop)]
pub struct Told {
    pub rows: RowList,
    pub refs: Vec<RowRef>,
    /// How many rows of the list were tried.
    pub place: u64,
}

/// Adds the next row of a list, where it is chosen.
fn push_row(
    alloc: Global,
    told: &mut Told,
    choice: &Choice,
    home: &Home<'_>,
    cells: &CellValues,
) -> Result<(), NoMemory>
    ensures rows { OnOk result (told.new.rows ≡ told.old.rows ++ spec.rows_told choice.now.bound choice.now.fields.items
        (spec.own_row home.now.columns.now home.now.next_row told.old.place cells.now ∷ [])) }
    ensures refs { OnOk result (told.new.refs.items ≡ told.old.refs.items ++ spec.refs_told choice.now.bound
        (spec.own_row home.now.columns.now home.now.next_row told.old.place cells.now ∷ [])) }
    ensures place { OnOk result (told.new.place ≡ told.old.place + 1) }
{
    let place = told.place;
    let (Some(id), Some(next)) = (home.next_row.checked_add(place), place.checked_add(1)) else {
        return Err(AllocError);
    };
    let laid = Laid {
        columns: home.columns,
        cells: cells.as_slice(),
    };
    if push_chosen(alloc, &mut told.rows, choice, id, &laid)? {
        told.refs.push(RowRef::Fresh(place))?;
    }
    told.place = next;
    Ok(())
}

/// Adds those of some further rows that are chosen.
fn push_rows(
    alloc: Global,
    told: &mut Told,
    choice: &Choice,
    home: &Home<'_>,
    rows: &[CellValues],
) -> Result<(), NoMemory>
    ensures rows { OnOk result (told.new.rows ≡ told.old.rows ++ spec.rows_told choice.now.bound choice.now.fields.items
        (spec.own_rows home.now.columns.now home.now.next_row told.old.place rows.now)) }
    ensures refs { OnOk result (told.new.refs.items ≡ told.old.refs.items ++ spec.refs_told choice.now.bound
        (spec.own_rows home.now.columns.now home.now.next_row told.old.place rows.now)) }
    ensures place { OnOk result (told.new.place ≡ told.old.place + length rows.now) }
{
    for cells in rows {
        push_row(alloc, told, choice, home, cells)?;
    }
    Ok(())
}

/// The rows that a change inserts into a table.
fn insertion(table: Ref, change: &Change) -> Option<&[CellValues]>
    ensures some { IfSome result (λ rows. rows.now ≡ inserted_into table change.now) }
    ensures none { IfNone result (inserted_into table change.now ≡ []) }
{
    match change {
        Change::Insert { table: into, rows } if is_ref(table, *into) => Some(rows.as_slice()),
        _ => None,
    }
}

/// Adds the chosen ones of the rows that a change inserts.
fn push_change(
    alloc: Global,
    told: &mut Told,
    choice: &Choice,
    home: &Home<'_>,
    change: &Change,
) -> Result<(), NoMemory>
    ensures rows { OnOk result (told.new.rows ≡ told.old.rows ++ spec.rows_told choice.now.bound choice.now.fields.items
        (spec.own_rows home.now.columns.now home.now.next_row told.old.place (inserted_into home.now.table change.now))) }
    ensures refs { OnOk result (told.new.refs.items ≡ told.old.refs.items ++ spec.refs_told choice.now.bound
        (spec.own_rows home.now.columns.now home.now.next_row told.old.place (inserted_into home.now.table change.now))) }
    ensures place { OnOk result (told.new.place ≡ told.old.place + length (inserted_into home.now.table change.now)) }
{
    match insertion(home.table, change) {
        Some(rows) => push_rows(alloc, told, choice, home, rows),
        None => Ok(()),
    }
}

/// Adds the chosen ones of the rows that a list inserts into a table.
pub fn push_own(
    alloc: Global,
    told: &mut Told,
    choice: &Choice,
    home: &Home<'_>,
    own: &[Change],
) -> Result<(), NoMemory>
    ensures rows { OnOk result (told.new.rows ≡ told.old.rows ++ spec.rows_told choice.now.bound choice.now.fields.items
        (spec.own_rows home.now.columns.now home.now.next_row told.old.place (rows_for home.now.table own.now))) }
    ensures refs { OnOk result (told.new.refs.items ≡ told.old.refs.items ++ spec.refs_told choice.now.bound
        (spec.own_rows home.now.columns.now home.now.next_row told.old.place (rows_for home.now.table own.now))) }
{
    for change in own {
        push_change(alloc, told, choice, home, change)?;
    }
    Ok(())
}
