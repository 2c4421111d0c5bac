ghost use Rattle.std.specs.Prelude.{◌≡◌};
ghost use Rattle.std.specs.Option.{option_copied};
ghost use Rattle.inlined_rules.specs.Stays as spec;

use cat_rows::{InlinedRow, TableRow};
use cat_rules::Dated;
use cat_tables::{Interval, is_before};

fn stay_with(row: &InlinedRow, table: &TableRow) -> Option<Interval>
    ensures { result ≡ spec.stay_with row.now table.now }
{
    let both = row.interval().common(table.interval());
    if is_before(both.begin, both.end) {
        Some(both)
    } else {
        None
    }
}

/// When a row and its table are valid together, if they ever are.
pub(crate) fn stay_of(row: &InlinedRow, table: Option<&TableRow>) -> Option<Interval>
    ensures { result ≡ spec.stay_of row.now (option_copied table.entry) }
{
    match table {
        Some(table) => stay_with(row, table),
        None => None,
    }
}
