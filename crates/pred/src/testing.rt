ghost use Rattle.std.specs.Prelude.{◌≡◌, map};
ghost use Rattle.std.specs.Option.{option_copied};
ghost use Rattle.lake_types.specs.Cells.{cell_at};
ghost use Rattle.lake_types.specs.Truth.{all_of, any_of};
ghost use Rattle.pred.specs.Bound as spec;

use crate::bound::Bound;
use crate::cells::Cells;
use lake_types::{Row, Truth, compared, is_null};

/// The truth of a bound test over a row. A cell that the row lacks counts as NULL. It takes no memory.
pub fn test(bound: &Bound, row: &Row) -> Truth
    ensures { result ≡ spec.bound_truth (cell_at row.now.cells) bound.now }
{
    test_cells(bound, row)
}

/// Whether a row is chosen: where its test is true, or where there is no test. It takes no memory.
pub fn chooses<C: Cells>(bound: Option<&Bound>, cells: &C) -> bool
    ensures { result ≡ spec.bound_chooses (option_copied bound.entry) (C.cell cells.now) }
{
    match bound {
        Some(bound) => test_cells(bound, cells) == Truth::True,
        None => true,
    }
}

/// The truth of a bound test over a row wherever it lies, in one look for each comparison and each test of
/// NULL. A cell that the row lacks counts as NULL. It takes no memory.
#[cycle(truth)]
pub fn test_cells<C: Cells>(bound: &Bound, cells: &C) -> Truth
    ensures { result ≡ spec.bound_truth (C.cell cells.now) bound.now }
{
    match bound {
        Bound::Compare { field, op, value } => compared(*op, cells.cell(*field), value),
        Bound::IsNull { field } => Truth::of(is_null(cells.cell(*field))),
        Bound::NotNull { field } => Truth::of(!is_null(cells.cell(*field))),
        Bound::Not(part) => test_cells(part.get(), cells).not(),
        Bound::And(parts) => truth_of_all(parts.as_slice(), cells),
        Bound::Or(parts) => truth_of_any(parts.as_slice(), cells),
    }
}

#[cycle(truth)]
fn truth_of_all<C: Cells>(parts: &[Bound], cells: &C) -> Truth
    ensures { result ≡ all_of (map (spec.bound_truth (C.cell cells.now)) parts.now) }
{
    let mut all = Truth::True;
    for part in parts {
        all = all.and(test_cells(part, cells));
    }
    all
}

#[cycle(truth)]
fn truth_of_any<C: Cells>(parts: &[Bound], cells: &C) -> Truth
    ensures { result ≡ any_of (map (spec.bound_truth (C.cell cells.now)) parts.now) }
{
    let mut any = Truth::False;
    for part in parts {
        any = any.or(test_cells(part, cells));
    }
    any
}
