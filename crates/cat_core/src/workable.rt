ghost use Rattle.std.specs.Prelude.{◌↔◌, ◌<◌, ℕ, IfSome, IsTrue, None};
ghost use Rattle.std.specs.List.{AllByRecursion};
ghost use Rattle.lake_types.specs.declared.limits.TheConstants.{MAX_DEFAULT_BYTES};
ghost use Rattle.lake_model.specs.Fits.{IsAtMost};
ghost use Rattle.cat_tables.specs.Table.{IsAscending};
ghost use Rattle.cat_view.specs.Views.{named_file, named_table, named_tables, named_version};
ghost use Rattle.cat_view.specs.Workable.{HasIds, HasOtherField, IsWorkable};
ghost use Rattle.cat_core.specs.Workable.{AreFilesWorkable, AreSizedColumns, IsSizedColumn};
ghost use Rattle.cat_core.specs.Workable.{HasLowerId, IsTableWorkable, RisesPast};

use cat_view::{LiveFile, TableView, Version};
use file_disk::Held;
use lake_types::limits::{MAX_COLUMNS, MAX_COUNTER, MAX_DEFAULT_BYTES, MAX_FIELD, MAX_NAME_BYTES};
use lake_types::{Column, Value};
use std::sync::Arc;

/// Whether a value is small enough for a default.
fn is_small(value: &Value) -> bool
    ensures { IsTrue result ↔ IsAtMost MAX_DEFAULT_BYTES value.now }
{
    match value {
        Value::Text(text) => text.as_str().len() <= MAX_DEFAULT_BYTES,
        Value::Bytes(bytes) => bytes.as_slice().len() <= MAX_DEFAULT_BYTES,
        _ => true,
    }
}

/// Whether a column's name, defaults and field id are within their limits.
fn is_column(column: &Column) -> bool
    ensures { IsTrue result ↔ IsSizedColumn column.now }
{
    column.name.as_str().len() <= MAX_NAME_BYTES
        && is_small(&column.initial)
        && is_small(&column.default_value)
        && column.field < MAX_FIELD
}

/// Whether none of these columns has a column's field id.
fn lack_field(columns: &[Column], column: &Column) -> bool
    ensures { IsTrue result ↔ AllByRecursion (HasOtherField column.now) columns.now }
{
    let mut rest = columns;
    while let [other, more @ ..] = rest {
        if column.field == other.field {
            return false;
        }
        rest = more;
    }
    true
}

/// Whether the field ids of columns differ.
fn do_fields_differ(columns: &[Column]) -> bool
    ensures { IsTrue result ↔ IsAscending HasOtherField columns.now }
{
    let mut rest = columns;
    while let [column, more @ ..] = rest {
        if !lack_field(more, column) {
            return false;
        }
        rest = more;
    }
    true
}

/// Whether each column is within its limits.
fn are_sized(columns: &[Column]) -> bool
    ensures { IsTrue result ↔ AllByRecursion IsSizedColumn columns.now }
{
    let mut rest = columns;
    while let [column, more @ ..] = rest {
        if !is_column(column) {
            return false;
        }
        rest = more;
    }
    true
}

/// Whether the ids that a file's rows have by their places are within the limit.
fn has_ids<F: Held>(file: &LiveFile<F>) -> bool
    ensures { IsTrue result ↔ HasIds (named_file F.name file.now) }
{
    match file.first_row {
        Some(first) => first <= MAX_COUNTER && file.rows <= MAX_COUNTER - first,
        None => true,
    }
}

fn have_ids<F: Held>(files: &[Arc<LiveFile<F>>]) -> bool
    ensures { IsTrue result ↔ AreFilesWorkable F.name files.now }
{
    let mut rest = files;
    while let [file, more @ ..] = rest {
        if !has_ids(&**file) {
            return false;
        }
        rest = more;
    }
    true
}

/// Whether a table's columns are few and within their limits, with different field ids.
fn are_columns(columns: &[Column]) -> bool
    ensures { IsTrue result ↔ AreSizedColumns columns.now }
{
    if columns.len() > MAX_COLUMNS {
        return false;
    }
    if !are_sized(columns) {
        return false;
    }
    do_fields_differ(columns)
}

fn is_table_workable<F: Held>(table: &TableView<F>) -> bool
    ensures { IsTrue result ↔ IsTableWorkable (named_table F.name table.now) }
{
    if !are_columns(table.columns.as_slice()) {
        return false;
    }
    have_ids(table.files.as_slice())
}

fn are_tables_workable<F: Held>(tables: &[Arc<TableView<F>>]) -> bool
    ensures { IsTrue result ↔ AllByRecursion IsTableWorkable (named_tables F.name tables.now) }
{
    let mut rest = tables;
    while let [table, more @ ..] = rest {
        if !is_table_workable(&**table) {
            return false;
        }
        rest = more;
    }
    true
}

/// Whether ids of tables rise.
fn do_ids_rise<F: Held>(tables: &[Arc<TableView<F>>]) -> bool
    ensures { IsTrue result ↔ RisesPast None (named_tables F.name tables.now) }
{
    let mut last = None;
    let mut rest = tables;
    while let [table, more @ ..] = rest {
        if !is_past(last, table.head.id) {
            return false;
        }
        last = Some(table.head.id);
        rest = more;
    }
    true
}

/// Whether an id is past the last one, if there is one.
fn is_past(last: Option<u64>, id: u64) -> bool
    ensures { IsTrue result ↔ IfSome last (λ (n : ℕ). n < id) }
{
    match last {
        Some(last) => last < id,
        None => true,
    }
}

/// Whether a transaction can work on a version: ids of its tables rise, and columns and ids of rows are within
/// their limits.
pub(crate) fn is_workable<F: Held>(version: &Version<F>) -> bool
    ensures workable { IsTrue result → IsWorkable (named_version F.name version.now) }
    ensures passes { IsAscending HasLowerId (named_version F.name version.now).tables
        → IsWorkable (named_version F.name version.now) → IsTrue result }
{
    let tables = version.tables.as_slice();
    if !do_ids_rise(tables) {
        return false;
    }
    are_tables_workable(tables)
}
