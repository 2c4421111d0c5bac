ghost use Rattle.std.specs.Prelude.{IfOk, IsSomeAnd};
ghost use Rattle.cat_rows.specs.Batches.{tables_of};
ghost use Rattle.cat_rules.specs.First.{Holds};
ghost use Rattle.cat_rules.specs.HistoryRule.{IsSnapshotBad};
ghost use Rattle.cat_rules.specs.IntervalRule.{IsIntervalBad};
ghost use Rattle.cat_rules.specs.Named.{Tells};
ghost use Rattle.cat_rules.specs.Sane as spec;

use cat_rows::{CatRows, Key};
use cat_rules::BadRow;
use file_rules::{
    first_bad_column_stats, first_bad_data_file, first_bad_delete_file, first_bad_stats,
};
use history_rules::{first_bad_history, first_bad_id, first_bad_interval, first_bad_layout};
use inlined_rules::first_bad_inlined;
use lake_types::NoMemory;
use schema_rules::{first_bad_column, first_bad_schema, first_bad_table};
use std::alloc::Global;

fn told(alloc: Global, key: &Key, rule: u8) -> Result<Option<BadRow>, NoMemory>
    ensures { IfOk result (λ told. IsSomeAnd told (λ bad. Tells bad rule key.now)) }
{
    Ok(Some(BadRow::of(alloc, key, rule)?))
}

/// What the rule about the ids of the newest snapshot's counters and those after it tell.
fn from_ids(alloc: Global, rows: &CatRows) -> Result<Option<BadRow>, NoMemory>
    ensures { IfOk result (spec.FromIds (tables_of rows.now)) }
{
    match first_bad_id(rows) {
        Some(key) => told(alloc, &key, 12),
        None => Ok(None),
    }
}

/// What the rule about the statistics of tables and those after it tell.
fn from_stats(alloc: Global, rows: &CatRows) -> Result<Option<BadRow>, NoMemory>
    ensures { IfOk result (spec.FromStats (tables_of rows.now)) }
{
    match first_bad_stats(rows) {
        Some(key) => told(alloc, &key, 11),
        None => from_ids(alloc, rows),
    }
}

/// What the rule about inlined rows and those after it tell.
fn from_inlined(alloc: Global, rows: &CatRows) -> Result<Option<BadRow>, NoMemory>
    requires history { Holds (IsSnapshotBad (tables_of rows.now)) }
    requires intervals { Holds (IsIntervalBad (tables_of rows.now)) }
    ensures { IfOk result (spec.FromInlined (tables_of rows.now)) }
{
    match first_bad_inlined(alloc, rows)? {
        Some(key) => told(alloc, &key, 10),
        None => from_stats(alloc, rows),
    }
}

/// What the rule about the statistics of columns and those after it tell.
fn from_column_stats(alloc: Global, rows: &CatRows) -> Result<Option<BadRow>, NoMemory>
    requires history { Holds (IsSnapshotBad (tables_of rows.now)) }
    requires intervals { Holds (IsIntervalBad (tables_of rows.now)) }
    ensures { IfOk result (spec.FromColumnStats (tables_of rows.now)) }
{
    match first_bad_column_stats(alloc, rows)? {
        Some(key) => told(alloc, &key, 9),
        None => from_inlined(alloc, rows),
    }
}

/// What the rule about delete files and those after it tell.
fn from_delete_files(alloc: Global, rows: &CatRows) -> Result<Option<BadRow>, NoMemory>
    requires history { Holds (IsSnapshotBad (tables_of rows.now)) }
    requires intervals { Holds (IsIntervalBad (tables_of rows.now)) }
    ensures { IfOk result (spec.FromDeleteFiles (tables_of rows.now)) }
{
    match first_bad_delete_file(alloc, rows)? {
        Some(key) => told(alloc, &key, 8),
        None => from_column_stats(alloc, rows),
    }
}

/// What the rule about data files and paths and those after it tell.
fn from_data_files(alloc: Global, rows: &CatRows) -> Result<Option<BadRow>, NoMemory>
    requires history { Holds (IsSnapshotBad (tables_of rows.now)) }
    requires intervals { Holds (IsIntervalBad (tables_of rows.now)) }
    ensures { IfOk result (spec.FromDataFiles (tables_of rows.now)) }
{
    match first_bad_data_file(alloc, rows)? {
        Some(key) => told(alloc, &key, 7),
        None => from_delete_files(alloc, rows),
    }
}

/// What the rule about columns and those after it tell.
fn from_columns(alloc: Global, rows: &CatRows) -> Result<Option<BadRow>, NoMemory>
    requires history { Holds (IsSnapshotBad (tables_of rows.now)) }
    requires intervals { Holds (IsIntervalBad (tables_of rows.now)) }
    ensures { IfOk result (spec.FromColumns (tables_of rows.now)) }
{
    match first_bad_column(alloc, rows)? {
        Some(key) => told(alloc, &key, 6),
        None => from_data_files(alloc, rows),
    }
}

/// What the rule about tables and those after it tell.
fn from_tables(alloc: Global, rows: &CatRows) -> Result<Option<BadRow>, NoMemory>
    requires history { Holds (IsSnapshotBad (tables_of rows.now)) }
    requires intervals { Holds (IsIntervalBad (tables_of rows.now)) }
    ensures { IfOk result (spec.FromTables (tables_of rows.now)) }
{
    match first_bad_table(alloc, rows)? {
        Some(key) => told(alloc, &key, 5),
        None => from_columns(alloc, rows),
    }
}

/// What the rule about the names of schemas and those after it tell.
fn from_schemas(alloc: Global, rows: &CatRows) -> Result<Option<BadRow>, NoMemory>
    requires history { Holds (IsSnapshotBad (tables_of rows.now)) }
    requires intervals { Holds (IsIntervalBad (tables_of rows.now)) }
    ensures { IfOk result (spec.FromSchemas (tables_of rows.now)) }
{
    match first_bad_schema(alloc, rows)? {
        Some(key) => told(alloc, &key, 4),
        None => from_tables(alloc, rows),
    }
}

/// What the rule about intervals and those after it tell.
fn from_intervals(alloc: Global, rows: &CatRows) -> Result<Option<BadRow>, NoMemory>
    requires history { Holds (IsSnapshotBad (tables_of rows.now)) }
    ensures { IfOk result (spec.FromIntervals (tables_of rows.now)) }
{
    match first_bad_interval(rows) {
        Some(key) => told(alloc, &key, 3),
        None => from_schemas(alloc, rows),
    }
}

/// What the rule about snapshots and those after it tell.
fn from_history(alloc: Global, rows: &CatRows) -> Result<Option<BadRow>, NoMemory>
    ensures { IfOk result (spec.FromHistory (tables_of rows.now)) }
{
    match first_bad_history(alloc, rows)? {
        Some(key) => told(alloc, &key, 2),
        None => from_intervals(alloc, rows),
    }
}

/// The first row that breaks a rule, of the first rule that is broken; none where the catalogue is sane.
pub fn first_bad_row(alloc: Global, rows: &CatRows) -> Result<Option<BadRow>, NoMemory>
    ensures { IfOk result (spec.IsFirstBadRow (tables_of rows.now)) }
{
    match first_bad_layout(alloc, rows)? {
        Some(key) => told(alloc, &key, 1),
        None => from_history(alloc, rows),
    }
}
