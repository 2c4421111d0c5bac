ghost use Rattle.std.specs.Prelude.{◌↔◌, ◌<◌, ◌+◌, ◌^◌, IfSome, IsTrue, map};
ghost use Rattle.std.specs.List.{AllByRecursion};
ghost use Rattle.lake_types.specs.Texts.{HoldsBytes};
ghost use Rattle.cat_rows.specs.Batches.{tables_of};
ghost use Rattle.cat_rows.specs.declared.files.TableStatsRow.{TableStatsRow};
ghost use Rattle.cat_texts.specs.Written.{FitDefaults};
ghost use Rattle.cat_view.specs.StagedNames.{named_staged_table};
ghost use Rattle.cat_view.specs.Typed.{HasBytes};
ghost use Rattle.col_stats.specs.Bounds.{HasText};
ghost use Rattle.col_stats.specs.Stats.{Fits, HasTexts};
ghost use Rattle.rebase.specs.Batch.{CanBeMade};
ghost use Rattle.rebase.specs.Files.{files_in};
ghost use Rattle.rebase.specs.Made.{HasFittingDefaults};
ghost use Rattle.rebase.specs.Parts.{fresh_files, old_stats};
ghost use Rattle.cat_core.specs.Commits.{CreatesBytes};
ghost use Rattle.cat_core.specs.Makeable.{CanAllBeAdded, CanBeAdded};

use cat_rows::CatRows;
use cat_tables::find_row;
use cat_view::{StagedFile, StagedTable};
use col_stats::ColStats;
use file_disk::Held;
use lake_model::{Change, Ref};
use lake_types::{ColType, Column, Value, fits, is_day};

/// Whether a default fits a type. The bytes of a default are bytes, since each `Blob`'s are.
fn default_fits(value: &Value, ty: ColType) -> bool
    ensures fits { IsTrue result ↔ Fits ty value.now }
    ensures bytes { HoldsBytes value.now }
{
    match value {
        Value::Bytes(bytes) => {
            let _bytes = bytes.as_slice();
            fits(value, ty)
        }
        _ => fits(value, ty),
    }
}

fn column_fits(column: &Column) -> bool
    ensures fits { IsTrue result ↔ FitDefaults column.now }
    ensures bytes { HasBytes column.now }
{
    let initial = default_fits(&column.initial, column.ty);
    let default_value = default_fits(&column.default_value, column.ty);
    initial && default_value
}

/// Whether the defaults of columns fit their types. All are looked at, so that the bytes of all are known.
fn do_columns_fit(columns: &[Column]) -> bool
    ensures fits { IsTrue result ↔ AllByRecursion FitDefaults columns.now }
    ensures bytes { AllByRecursion HasBytes columns.now }
{
    let mut fit = true;
    let mut rest = columns;
    while let [column, more @ ..] = rest {
        let fits = column_fits(column);
        fit = fit && fits;
        rest = more;
    }
    fit
}

fn change_fits(change: &Change) -> bool
    ensures fits { IsTrue result ↔ HasFittingDefaults change.now }
    ensures bytes { CreatesBytes change.now }
{
    match change {
        Change::CreateTable { columns, .. } => do_columns_fit(columns.as_slice()),
        _ => true,
    }
}

/// Whether the defaults of created columns fit their types. All are looked at, so that the bytes of all are
/// known.
fn do_defaults_fit(own: &[Change]) -> bool
    ensures fits { IsTrue result ↔ AllByRecursion HasFittingDefaults own.now }
    ensures bytes { AllByRecursion CreatesBytes own.now }
{
    let mut fit = true;
    let mut rest = own;
    while let [change, more @ ..] = rest {
        let fits = change_fits(change);
        fit = fit && fits;
        rest = more;
    }
    fit
}

/// Whether a bound that is there has a text.
fn has_text(bound: &Option<Value>) -> bool
    ensures { IsTrue result ↔ IfSome bound.now HasText }
{
    match bound {
        None => true,
        Some(Value::Null) => false,
        Some(Value::Date(day)) => is_day(*day),
        Some(_) => true,
    }
}

fn have_texts(stats: &[ColStats]) -> bool
    ensures { IsTrue result ↔ AllByRecursion HasTexts stats.now }
{
    let mut rest = stats;
    while let [column, more @ ..] = rest {
        if !has_text(&column.min) || !has_text(&column.max) {
            return false;
        }
        rest = more;
    }
    true
}

/// Whether the record count of a table has 64 bits with so many more rows.
fn has_room(rows: &CatRows, table: Ref, more: u64) -> bool
    ensures { IsTrue result ↔ IfSome (old_stats (tables_of rows.now) table)
        (λ (r : TableStatsRow). r.record_count + more < 2 ^ 64) }
{
    match table {
        Ref::Old(id) => match find_row(rows.table_stats(), &id) {
            Some(stats) => stats.record_count <= u64::MAX - more,
            None => true,
        },
        Ref::New(_) => true,
    }
}

/// Whether the rows of a staged file can be written into the catalogue.
fn can_be_added<F: Held>(rows: &CatRows, table: Ref, file: &StagedFile<F>) -> bool
    ensures { IsTrue result ↔ CanBeAdded (tables_of rows.now) table file.now.rows file.now.stats }
{
    if !have_texts(file.stats.as_slice()) {
        return false;
    }
    has_room(rows, table, file.rows)
}

fn can_all_be_added<F: Held>(rows: &CatRows, staged: &[StagedTable<F>]) -> bool
    ensures { IsTrue result ↔ CanAllBeAdded (tables_of rows.now) (files_in F.name F.size staged.now) }
{
    let mut rest = staged;
    while let [table, more @ ..] = rest {
        if let Some(file) = &table.fresh {
            if !can_be_added(rows, table.table, file) {
                return false;
            }
        }
        rest = more;
    }
    true
}

/// Whether the batch of a list and its staged files can be made: defaults of created columns fit their types,
/// bounds of statistics have texts, and counts of rows stay within 64 bits. Whatever it says, the bytes of the
/// defaults are bytes.
pub(crate) fn can_be_made<F: Held>(
    rows: &CatRows,
    own: &[Change],
    staged: &[StagedTable<F>],
) -> bool
    ensures made { IsTrue result → CanBeMade (tables_of rows.now) own.now
        (fresh_files (map (named_staged_table F.name F.size) staged.now)) }
    ensures bytes { AllByRecursion CreatesBytes own.now }
    ensures passes { CanBeMade (tables_of rows.now) own.now
        (fresh_files (map (named_staged_table F.name F.size) staged.now)) → IsTrue result }
{
    if !do_defaults_fit(own) {
        return false;
    }
    can_all_be_added(rows, staged)
}
