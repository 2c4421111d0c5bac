ghost use Rattle.std.specs.Prelude.{◌≡◌, ◌++◌, ◌<◌, length, map, OnOk};
ghost use Rattle.std.specs.Arc.{arc_value};
ghost use Rattle.scan_exec.specs.Picking as spec;

use crate::choice::{Choice, push_chosen};
use crate::place::Place;
use lake_types::{NoMemory, Row, RowList};
use sheet_rows::SheetRows;
use std::alloc::Global;
use std::sync::Arc;

/// Adds the chosen rows of a data file behind others, in the file's order.
pub fn push_sheet(
    alloc: Global,
    rows: &mut RowList,
    choice: &Choice,
    sheet: &SheetRows,
) -> Result<(), NoMemory>
    ensures { OnOk result (rows.new ≡ rows.old
        ++ spec.short_rows choice.now.bound choice.now.fields.items sheet.now) }
{
    for at in 0..sheet.len() {
        push_chosen(
            alloc,
            rows,
            choice,
            sheet.id(at),
            &Place { rows: sheet, at },
        )?;
    }
    Ok(())
}

/// Adds the chosen rows of some that lie in the catalogue behind others, in their order.
pub fn push_inlined(
    alloc: Global,
    rows: &mut RowList,
    choice: &Choice,
    inlined: &[Arc<Row>],
) -> Result<(), NoMemory>
    ensures { OnOk result (rows.new ≡ rows.old
        ++ spec.short_rows choice.now.bound choice.now.fields.items (map (λ r. arc_value r) inlined.now)) }
{
    for row in inlined {
        push_chosen(alloc, rows, choice, row.id, &**row)?;
    }
    Ok(())
}
