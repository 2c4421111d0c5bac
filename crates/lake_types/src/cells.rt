ghost use Rattle.std.specs.Prelude.{◌≡◌, map};
ghost use Rattle.std.specs.Option.{option_copied};
ghost use Rattle.lake_types.specs.Cells as spec;
ghost use Rattle.lake_types.specs.Truth.{truth, all_of, any_of};
ghost use Rattle.lake_types.specs.Truth as truths;

use crate::pred::Pred;
use crate::truth::{Truth, compared, is_null};
use crate::value::{Column, Value};

/// The cell of a field; none where the row lacks it.
pub fn cell_at(cells: &[(u32, Value)], field: u32) -> Option<&Value>
    ensures { option_copied result ≡ spec.cell_at cells.now field }
{
    for (at, value) in cells {
        if *at == field {
            return Some(value);
        }
    }
    None
}

/// The first column with a name.
pub fn column_named<'a>(columns: &'a [Column], name: &str) -> Option<&'a Column>
    ensures { option_copied result ≡ spec.column_named columns.now name.now }
{
    for column in columns {
        if column.name.as_str() == name {
            return Some(column);
        }
    }
    None
}

/// The cell of the column with a name.
pub fn cell_named<'a>(
    columns: &[Column],
    cells: &'a [(u32, Value)],
    name: &str,
) -> Option<&'a Value>
    ensures { option_copied result ≡ spec.cell_named columns.now cells.now name.now }
{
    match column_named(columns, name) {
        Some(column) => cell_at(cells, column.field),
        None => None,
    }
}

/// Whether a row is chosen: where its test is true, or where there is no test.
pub fn chooses(test: Option<&Pred>, columns: &[Column], cells: &[(u32, Value)]) -> bool
    ensures { result ≡ truths.chooses (option_copied test.entry) (spec.cell_named columns.now cells.now) }
{
    match test {
        Some(test) => test_row(test, columns, cells) == Truth::True,
        None => true,
    }
}

/// The truth of a test over a row, in time linear in the parts of the test times the row's cells.
#[cycle(truth)]
pub fn test_row(test: &Pred, columns: &[Column], cells: &[(u32, Value)]) -> Truth
    ensures { result ≡ truth (spec.cell_named columns.now cells.now) test.now }
{
    match test {
        Pred::Compare { name, op, value } => compared(
            *op,
            cell_named(columns, cells, name.as_str()),
            value,
        ),
        Pred::IsNull { name } => Truth::of(is_null(cell_named(columns, cells, name.as_str()))),
        Pred::NotNull { name } => Truth::of(!is_null(cell_named(columns, cells, name.as_str()))),
        Pred::Not(part) => test_row(part.get(), columns, cells).not(),
        Pred::And(parts) => truth_of_all(parts.as_slice(), columns, cells),
        Pred::Or(parts) => truth_of_any(parts.as_slice(), columns, cells),
    }
}

#[cycle(truth)]
fn truth_of_all(parts: &[Pred], columns: &[Column], cells: &[(u32, Value)]) -> Truth
    ensures { result ≡ all_of (map (truth (spec.cell_named columns.now cells.now)) parts.now) }
{
    let mut all = Truth::True;
    for part in parts {
        all = all.and(test_row(part, columns, cells));
    }
    all
}

#[cycle(truth)]
fn truth_of_any(parts: &[Pred], columns: &[Column], cells: &[(u32, Value)]) -> Truth
    ensures { result ≡ any_of (map (truth (spec.cell_named columns.now cells.now)) parts.now) }
{
    let mut any = Truth::False;
    for part in parts {
        any = any.or(test_row(part, columns, cells));
    }
    any
}
