ghost use Rattle.std.specs.Prelude.{◌≡◌, ◌≤◌, ◌^◌, IfNone, IfSome};
ghost use Rattle.std.specs.List.{sum_by};
ghost use Rattle.lake_types.specs.Weights as weights;
ghost use Rattle.sheet_rows.specs.Sheets as spec;

use lake_types::limits::MAX_FIELD;
use lake_types::{Sheet, SheetColumn, Value, weight};

fn is_data(column: &SheetColumn) -> bool
    ensures { result ≡ spec.is_data column.now }
{
    match column.field {
        Some(field) => field != MAX_FIELD,
        None => true,
    }
}

/// The weight of some cells; none past the last `u64`.
#[tactic(auto, using(crate::proofs::SumLemmas::sums))]
fn cells_weight(cells: &[Value]) -> Option<u64>
    ensures some { IfSome result (λ total. total ≡ sum_by weights.weight cells.now) }
    ensures none { IfNone result (2 ^ 64 ≤ sum_by weights.weight cells.now) }
{
    let mut total = 0u64;
    for cell in cells {
        total = total.checked_add(weight(cell))?;
    }
    Some(total)
}

/// The weight of a column's cells, 0 of row ids; none past the last `u64`.
fn data_weight(column: &SheetColumn) -> Option<u64>
    ensures some { IfSome result (λ total. total ≡ spec.data_weight column.now) }
    ensures none { IfNone result (2 ^ 64 ≤ spec.data_weight column.now) }
{
    if !is_data(column) {
        return Some(0);
    }
    cells_weight(column.cells.as_slice())
}

#[tactic(auto, using(crate::proofs::SumLemmas::sums))]
fn columns_weight(columns: &[SheetColumn]) -> Option<u64>
    ensures some { IfSome result (λ total. total ≡ sum_by spec.data_weight columns.now) }
    ensures none { IfNone result (2 ^ 64 ≤ sum_by spec.data_weight columns.now) }
{
    let mut total = 0u64;
    for column in columns {
        total = total.checked_add(data_weight(column)?)?;
    }
    Some(total)
}

/// The weight of a file: 16 for each row, and its cells without the row ids. None past the last `u64`.
pub fn sheet_weight(sheet: &Sheet) -> Option<u64>
    ensures some { IfSome result (λ total. total ≡ spec.sheet_weight sheet.now) }
    ensures none { IfNone result (2 ^ 64 ≤ spec.sheet_weight sheet.now) }
{
    let rows = sheet.rows.checked_mul(16)?;
    rows.checked_add(columns_weight(sheet.columns.as_slice())?)
}
