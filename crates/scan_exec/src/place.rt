ghost use Rattle.std.specs.Prelude.{◌≡◌, ◌<◌};
ghost use Rattle.scan_exec.specs.Picking.{cell_in};

use lake_types::Value;
use pred::Cells;
use sheet_rows::SheetRows;

/// A row of a data file, by its number among those that are left. Past the last one there are no cells.
#[derive(Clone, Copy)]
pub struct Place<'a> {
    pub rows: &'a SheetRows,
    pub at: u64,
}

impl<'a> Cells for Place<'a> {
    ghost cell = { λ p. cell_in p.rows.now p.at };

    fn cell(&self, field: u32) -> Option<&Value> {
        if self.at < self.rows.len() {
            self.rows.cell(self.at, field)
        } else {
            None
        }
    }
}
