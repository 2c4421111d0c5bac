ghost use Rattle.std.specs.Prelude.{◌≡◌, ◌<◌, ◌+◌, ◌^◌, length};
ghost use Rattle.lake_model.specs.Apply.{table_id};
ghost use Rattle.cat_rows.specs.Batches.{tables_of};
ghost use Rattle.rebase.specs.Files.{files_in};
ghost use Rattle.rebase.specs.Made.{creations_of};
ghost use Rattle.rebase.specs.Parts as parts;
ghost use Rattle.rebase.specs.Spent as spec;

use crate::creations::{Made, table_id};
use crate::files::first_row;
use cat_rows::{CatRows, SnapshotRow};
use cat_view::StagedTable;
use file_disk::Held;
use lake_model::Counter;
use lake_types::limits::MAX_COUNTER;

/// The counter, where so many more take it past its last value.
pub(crate) fn spent_if(counter: Counter, from: u64, more: u64) -> Option<Counter>
    ensures { result ≡ spec.spent_if counter (from + more) }
{
    if from > MAX_COUNTER || more > MAX_COUNTER - from {
        Some(counter)
    } else {
        None
    }
}

/// The row counter of the first table, in the order of staging, that new rows take past its last value.
pub(crate) fn spent_rows<F: Held>(
    rows: &CatRows,
    next: u64,
    made: &[Made],
    staged: &[StagedTable<F>],
) -> Option<Counter>
    requires { next + length made.now < 2 ^ 64 }
    ensures { result ≡ spec.spent_rows (tables_of rows.now) next (creations_of made.now) (files_in F.name F.size staged.now) }
{
    let mut rest = staged;
    while let [table, more @ ..] = rest {
        if let Some(file) = &table.fresh {
            let counter = Counter::Row {
                table: table_id(next, made, table.table),
            };
            let spent = spent_if(counter, first_row(rows, table.table), file.rows);
            if spent.is_some() {
                return spent;
            }
        }
        rest = more;
    }
    None
}

/// How many files were staged.
pub(crate) fn count_files<F: Held>(staged: &[StagedTable<F>]) -> u64
    ensures { result ≡ length (files_in F.name F.size staged.now) }
{
    let mut count = 0;
    let mut rest = staged;
    while let [table, more @ ..] = rest {
        if let Some(_) = &table.fresh {
            count += 1;
        }
        rest = more;
    }
    count
}
