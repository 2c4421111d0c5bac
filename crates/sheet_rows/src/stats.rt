ghost use Rattle.std.specs.Prelude.{◌≡◌, IfOk};
ghost use Rattle.std.specs.List.{AllZip};
ghost use Rattle.sheet_rows.specs.Sheets.{AreCounts, IsColumnOf};

use col_stats::{ColStats, count_cells};
use lake_types::{Column, NoMemory, SheetColumn};
use std::alloc::Global;

/// The statistics of each column of a sheet, which stands for a table's column at the same place.
pub fn column_stats(
    alloc: Global,
    columns: &[Column],
    sheet: &[SheetColumn],
) -> Result<Vec<ColStats>, NoMemory>
    requires { AllZip IsColumnOf columns.now sheet.now }
    ensures { IfOk result (λ stats. AllZip AreCounts sheet.now stats.items) }
{
    let mut stats = Vec::new(alloc);
    for at in 0..sheet.len() {
        let counted = counts_of(alloc, &columns[at], &sheet[at])?;
        stats.push(counted)?;
    }
    Ok(stats)
}

fn counts_of(alloc: Global, column: &Column, laid: &SheetColumn) -> Result<ColStats, NoMemory>
    requires { IsColumnOf column.now laid.now }
    ensures { IfOk result (AreCounts laid.now) }
{
    count_cells(alloc, column, laid.cells.as_slice())
}
