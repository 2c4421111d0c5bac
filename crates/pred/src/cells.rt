ghost use Rattle.std.specs.Prelude.{◌≡◌, ℕ, Option};
ghost use Rattle.std.specs.Option.{option_copied};
ghost use Rattle.lake_types.specs.Cells.{cell_at};
ghost use Rattle.lake_types.specs.declared.value.Value.{Value};

use lake_types::{CellValues, Row, Value, cell_at};

/// The cells of a row, wherever it lies: in a list of its own, or at a place of columns.
pub trait Cells {
    /// The cell of each field; none where the row lacks it.
    ghost cell: { Self → ℕ → Option Value };

    /// The cell of a field; none where the row lacks it.
    fn cell(&self, field: u32) -> Option<&Value>
        ensures { option_copied result ≡ cell self.now field };
}

impl Cells for CellValues {
    ghost cell = { λ cells. cell_at cells };

    fn cell(&self, field: u32) -> Option<&Value> {
        cell_at(self.as_slice(), field)
    }
}

impl Cells for Row {
    ghost cell = { λ row. cell_at row.cells };

    fn cell(&self, field: u32) -> Option<&Value> {
        cell_at(self.cells.as_slice(), field)
    }
}
