ghost use Rattle.std.specs.Prelude.{◌≡◌, ◌<◌, All, length, map, true, IfOk};
ghost use Rattle.std.specs.List.{slice_index_or};
ghost use Rattle.std.specs.Option.{option_copied};
ghost use Rattle.field_map.specs.Laid.{ArePlaces};
ghost use Rattle.field_map.specs.Steps.{cell};
ghost use Rattle.lake_types.specs.Cells.{cell_at};
ghost use Rattle.lake_types.specs.declared.value.Row.{Row as RowOf};
ghost use Rattle.sheet_rows.specs.Live.{left_from, rise_within};
ghost use Rattle.sheet_rows.specs.Rows as spec;
ghost use Rattle.sheet_rows.specs.declared.places.Kept.TheVariants as kept;

use crate::ids::{RowIds, id_at};
use crate::places::{Kept, count_of, kept_only, kept_without, place_at};
use field_map::{cells_of, places_of, value_at};
use lake_types::{Column, ColumnList, NoMemory, Row, RowList, Sheet, SheetColumn, Value};
use std::alloc::Global;
use std::marker::Model;

/// Rows that lie by columns, as their file has them: those of a sheet, laid into a table's columns. Contracts see
/// the list of rows. No cell is copied before a row is asked for.
#[derive(Drop)]
pub struct SheetRows {
    sheet: Sheet,
    columns: ColumnList,
    /// Where the sheet has each of the columns.
    at: Vec<Option<usize>>,
    ids: RowIds,
    kept: Kept,
}

impl Model for SheetRows {
    ghost use Rattle.std.specs.Prelude.{List};
    ghost use Rattle.lake_types.specs.declared.value.Row.{Row};
    ghost use Rattle.sheet_rows.specs.Rows.{AreKnown, rows_of};

    ghost Value = { List Row };

    ghost view = { λ r. rows_of r.ids r.kept r.columns r.sheet };

    ghost invariant = { λ r. AreKnown r.sheet r.columns r.at.items r.ids r.kept };
}

/// The cell of a field in a row; none where no column has it.
fn cell_in<'a>(
    sheet: &'a [SheetColumn],
    columns: &'a [Column],
    places: &[Option<usize>],
    row: u64,
    field: u32,
) -> Option<&'a Value>
    requires { ArePlaces sheet.now columns.now places.now }
    ensures { option_copied result ≡ cell_at (map (cell sheet.now row) columns.now) field }
{
    for at in 0..columns.len() {
        let column = &columns[at];
        if column.field == field {
            return Some(value_at(sheet, places[at], row, &column.initial));
        }
    }
    None
}

impl SheetRows {
    /// All rows of a sheet. Only the columns' places take memory.
    #[tactic(auto, using(crate::proofs::RowLemmas::all_within))]
    pub(crate) fn of(
        alloc: Global,
        sheet: Sheet,
        columns: ColumnList,
        ids: RowIds,
    ) -> Result<SheetRows, NoMemory>
        requires { spec.AreSmall ids sheet.rows }
        ensures { IfOk result (λ rows. rows ≡ spec.rows_of ids kept.All columns sheet) }
    {
        let at = places_of(alloc, sheet.columns.as_slice(), columns.as_slice())?;
        Ok(SheetRows {
            sheet,
            columns,
            at,
            ids,
            kept: Kept::All,
        })
    }

    #[tactic(auto, using(crate::proofs::RowLemmas::count))]
    pub fn len(&self) -> u64
        ensures { result ≡ length self.now }
    {
        count_of(&self.kept, self.sheet.rows)
    }

    /// The id of a row, by its number among those that are there.
    #[tactic(auto, using(crate::proofs::RowLemmas::reads))]
    pub fn id(&self, at: u64) -> u64
        requires { at < length self.now }
        ensures { (other : RowOf) → result ≡ (slice_index_or self.now at other).id }
    {
        let place = place_at(&self.kept, self.sheet.rows, at);
        id_at(self.ids, self.sheet.columns.as_slice(), place)
    }

    /// The cell of a field in a row; none where the columns have no such field.
    #[tactic(auto, using(crate::proofs::RowLemmas::reads))]
    pub fn cell(&self, at: u64, field: u32) -> Option<&Value>
        requires { at < length self.now }
        ensures { (other : RowOf) → option_copied result ≡ cell_at (slice_index_or self.now at other).cells field }
    {
        let place = place_at(&self.kept, self.sheet.rows, at);
        cell_in(
            self.sheet.columns.as_slice(),
            self.columns.as_slice(),
            self.at.as_slice(),
            place,
            field,
        )
    }

    /// A row of its own: its cells are copied.
    #[tactic(auto, using(crate::proofs::RowLemmas::reads))]
    pub fn row(&self, alloc: Global, at: u64) -> Result<Row, NoMemory>
        requires { at < length self.now }
        ensures { IfOk result (λ row. (other : RowOf) → row ≡ slice_index_or self.now at other) }
    {
        let place = place_at(&self.kept, self.sheet.rows, at);
        let cells = cells_of(
            alloc,
            self.sheet.columns.as_slice(),
            self.columns.as_slice(),
            self.at.as_slice(),
            place,
        )?;
        Ok(Row {
            id: id_at(self.ids, self.sheet.columns.as_slice(), place),
            cells,
        })
    }

    /// The list of the rows. All their cells are copied.
    pub fn to_rows(&self, alloc: Global) -> Result<RowList, NoMemory>
        ensures { IfOk result (λ rows. rows ≡ self.now) }
    {
        let mut rows = RowList::new(alloc);
        for at in 0..self.len() {
            rows.push(self.row(alloc, at)?)?;
        }
        Ok(rows)
    }

    /// The rows that are left without those at some places, which rise.
    #[tactic(auto, using(crate::proofs::RowLemmas::left))]
    pub fn without(self, alloc: Global, gone: &[u64]) -> Result<SheetRows, NoMemory>
        requires { rise_within 0 (length self) gone.now ≡ true }
        ensures { IfOk result (λ rows. rows ≡ left_from 0 gone.now self) }
    {
        let SheetRows {
            sheet,
            columns,
            at,
            ids,
            kept,
        } = self;
        let kept = kept_without(alloc, kept, sheet.rows, gone)?;
        Ok(SheetRows {
            sheet,
            columns,
            at,
            ids,
            kept,
        })
    }

    /// The rows with some numbers, in this order.
    #[tactic(auto, using(crate::proofs::RowLemmas::count))]
    pub fn only(self, alloc: Global, those: &[u64]) -> Result<SheetRows, NoMemory>
        requires { All (λ at. at < length self) those.now }
        ensures { IfOk result (λ rows. (other : RowOf) → rows ≡ map (λ at. slice_index_or self at other) those.now) }
    {
        let SheetRows {
            sheet,
            columns,
            at,
            ids,
            kept,
        } = self;
        let kept = kept_only(alloc, kept, sheet.rows, those)?;
        Ok(SheetRows {
            sheet,
            columns,
            at,
            ids,
            kept,
        })
    }
}
