ghost use Rattle.std.specs.Prelude.{◌≡◌};
ghost use Rattle.std.specs.Option.{option_copied};
ghost use Rattle.cat_tables.specs.Table.{RisesByKey};
ghost use Rattle.cat_rows.specs.Batches.{tables_of};
ghost use Rattle.cat_rows.specs.Keys.{column_key};
ghost use Rattle.cat_rows.specs.Validities.{column_validity};
ghost use Rattle.cat_rules.specs.First.{FirstBad};
ghost use Rattle.cat_rules.specs.IntervalRule as spec;
ghost use Rattle.cat_rules.specs.IntervalRule.{IsIntervalBad, IsWronglyDated};
ghost use Rattle.cat_rules.specs.Places.{of_column};
ghost use Rattle.cat_rules.specs.Rows.{Names};
ghost use Rattle.history_rules.specs.Steps as steps;

use cat_rows::{CatRows, ColumnRow, Key};
use cat_rules::{Dated, Kept, RowRule, first_bad, kept_of, sooner};
use cat_tables::is_before;

/// Whether an end isn't past its begin, or not past the first kept snapshot, or past the newest.
fn ends_wrong(kept: Kept, begin: u64, end: Option<u64>) -> bool
    ensures { result ≡ spec.ends_wrong kept begin end }
{
    match end {
        Some(end) => end <= begin || end <= kept.first || kept.newest < end,
        None => false,
    }
}

fn is_misdated<R: Dated>(kept: Kept, row: &R) -> bool
    ensures { result ≡ spec.is_misdated kept R.validity row.now }
{
    let interval = row.interval();
    kept.newest < interval.begin || ends_wrong(kept, interval.begin, interval.end)
}

/// A row is bad whose interval doesn't lie within the kept snapshots.
#[derive(Drop)]
struct Misdated {
    kept: Kept,
}

impl<R: Dated> RowRule<R> for Misdated {
    ghost is_bad = { λ rule r. spec.is_misdated rule.kept R.validity r };

    ghost name = { R.name };

    fn judge(&self, row: &R) -> Option<Key> {
        if is_misdated(self.kept, row) {
            Some(row.key())
        } else {
            None
        }
    }
}

/// Whether a row of the same column begins before the last one has ended.
fn is_too_soon(last: &ColumnRow, row: &ColumnRow) -> bool
    ensures { result ≡ steps.is_too_soon last.now row.now }
{
    last.table_id == row.table_id
        && last.column_id == row.column_id
        && is_before(row.begin_snapshot, last.end_snapshot)
}

/// Whether a row is wrong by itself, or by the row that stands before it.
fn is_wrong(kept: Kept, last: Option<&ColumnRow>, row: &ColumnRow) -> bool
    ensures { result ≡ steps.is_wrong kept (option_copied last.entry) row.now }
{
    match last {
        Some(last) => is_misdated(kept, row) || is_too_soon(last, row),
        None => is_misdated(kept, row),
    }
}

/// The first row of a column whose interval is wrong. Rows of a column stand together and rise by their
/// begin, so it is enough to compare each with the one before it, as long as none was wrong.
fn first_wrong(kept: Kept, rows: &[ColumnRow]) -> Option<Key>
    requires { RisesByKey column_key rows.now }
    ensures { FirstBad (Names of_column (IsWronglyDated kept rows.now) rows.now) result }
{
    let mut last = None;
    for row in rows {
        if is_wrong(kept, last, row) {
            return Some(row.key());
        }
        last = Some(row);
    }
    None
}

/// The first bad row of the rule about intervals: each begin is at most the newest snapshot; an end is past
/// its begin, past the first kept snapshot and at most the newest; and intervals of one column don't overlap.
pub fn first_bad_interval(rows: &CatRows) -> Option<Key>
    ensures { FirstBad (IsIntervalBad (tables_of rows.now)) result }
{
    let kept = kept_of(rows.snapshot());
    let rule = Misdated { kept };
    let schema = first_bad(&rule, rows.schema());
    let table = first_bad(&rule, rows.table());
    let column = first_wrong(kept, rows.column());
    let data_file = first_bad(&rule, rows.data_file());
    let delete_file = first_bad(&rule, rows.delete_file());
    let inlined = first_bad(&rule, rows.inlined_row());
    let file = sooner(data_file, sooner(delete_file, inlined));
    sooner(schema, sooner(table, sooner(column, file)))
}
