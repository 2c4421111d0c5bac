//! Whether the cells fit the types of their columns.

ghost use Rattle.std.specs.Prelude.{◌≡◌, ◌+◌, ◌<◌, ◌^◌};
ghost use Rattle.pq_file.specs.Joining.{verdict};
ghost use Rattle.pq_file.specs.Reading as spec;

use crate::parts::{Misfit, Part};
use lake_types::{ColType, Value, fits};

/// The first of these cells, from the file's row `row` on, that does not fit the type.
fn first_misfit(column: u64, ty: ColType, row: u64, cells: &[Value]) -> Option<Misfit>
    requires { row < 2 ^ 63 }
    ensures { verdict result ≡ spec.cells_fit column ty row cells.now }
{
    for (at, cell) in cells.iter().enumerate() {
        if !fits(cell, ty) {
            return Some(Misfit {
                column,
                row: row + at as u64,
            });
        }
    }
    None
}

/// The first cell of a group, which begins at the file's row `row`, that does not fit its column's type.
pub fn misfit_in(row: u64, parts: &[Part]) -> Option<Misfit>
    requires { row < 2 ^ 63 }
    ensures { verdict result ≡ spec.parts_fit row parts.now }
{
    for part in parts {
        let found = first_misfit(part.place, part.ty, row, part.cells.as_slice());
        if found.is_some() {
            return found;
        }
    }
    None
}
