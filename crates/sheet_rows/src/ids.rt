ghost use Rattle.std.specs.Prelude.{◌≡◌, ◌<◌, ◌^◌, option_and_then};
ghost use Rattle.std.specs.List.{list_all};
ghost use Rattle.std.specs.Option.{is_some, option_copied};
ghost use Rattle.sheet_rows.specs.Live as live;
ghost use Rattle.sheet_rows.specs.Rows as spec;

use lake_types::{ColType, SheetColumn, Value};

/// Where the ids of a sheet's rows come from.
#[derive(Clone, Copy)]
pub(crate) enum RowIds {
    /// They count from this one.
    Start(u64),
    /// They stand in the sheet's column at this place.
    Column(usize),
}

/// The number that stands in a cell, which is neither NULL nor negative.
pub(crate) fn number_in(cell: &Value) -> Option<u64>
    ensures { result ≡ live.number_in cell.now }
{
    match cell {
        Value::Int(number) => u64::try_from(*number).ok(),
        _ => None,
    }
}

pub(crate) fn are_numbers(cells: &[Value]) -> bool
    ensures { result ≡ list_all (λ v. is_some (live.number_in v)) cells.now }
{
    cells.iter().all(|cell| number_in(cell).is_some())
}

pub(crate) fn is_integer(ty: ColType) -> bool
    ensures { result ≡ live.is_integer ty }
{
    matches!(
        ty,
        ColType::Int8 | ColType::Int16 | ColType::Int32 | ColType::Int64
    )
}

/// The number in a row of the sheet's column at a place.
fn number_at(sheet: &[SheetColumn], at: usize, row: u64) -> Option<u64>
    ensures { result ≡ spec.number_at sheet.now at row }
{
    let column = sheet.get(at)?;
    let cell = column.cells.as_slice().get(row as usize)?;
    number_in(cell)
}

/// The id of a row.
pub(crate) fn id_at(ids: RowIds, sheet: &[SheetColumn], row: u64) -> u64
    requires { spec.AreSmall ids row }
    ensures { result ≡ spec.id_at ids sheet.now row }
{
    match ids {
        RowIds::Start(first) => first + row,
        RowIds::Column(at) => number_at(sheet, at, row).unwrap_or(0),
    }
}
