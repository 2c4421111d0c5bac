ghost use Rattle.std.specs.Prelude.{◌≡◌, ◌<◌, ◌+◌, ◌++◌, ◌^◌, length, map, IfOk, OnOk};
ghost use Rattle.std.specs.List.{AllByRecursion};
ghost use Rattle.std.specs.Option.{option_copied};
ghost use Rattle.lake_model.specs.Apply.{table_id};
ghost use Rattle.cat_rows.specs.Batches.{tables_of};
ghost use Rattle.col_stats.specs.Stats.{HasTexts};
ghost use Rattle.cat_view.specs.StagedNames.{named_staged_file, named_staged_table};
ghost use Rattle.rebase.specs.Files as spec;
ghost use Rattle.rebase.specs.Made.{HasIds, creations_of};
ghost use Rattle.rebase.specs.Parts as parts;

use crate::creations::{next, table_id};
use crate::made::Place;
use cat_rows::{CatRow, CatRows, DataFileRow, TableStatsRow};
use cat_tables::find_row;
use cat_texts::stats_row;
use cat_view::{StagedFile, StagedTable};
use col_stats::ColStats;
use file_disk::Held;
use lake_model::Ref;
use lake_types::{Copied, NoMemory};
use std::alloc::Global;

/// The statistics of an old table. A created one has none yet.
pub(crate) fn old_stats(rows: &CatRows, table: Ref) -> Option<&TableStatsRow>
    ensures { option_copied result ≡ parts.old_stats (tables_of rows.now) table }
{
    match table {
        Ref::Old(id) => find_row(rows.table_stats(), &id),
        Ref::New(_) => None,
    }
}

/// The id of the first of a table's fresh rows.
pub(crate) fn first_row(rows: &CatRows, table: Ref) -> u64
    ensures { result ≡ parts.first_row (parts.old_stats (tables_of rows.now) table) }
{
    match old_stats(rows, table) {
        Some(stats) => stats.next_row_id,
        None => 0,
    }
}

/// The row of a table's file of fresh rows.
fn file_row<F: Held>(
    alloc: Global,
    rows: &CatRows,
    place: &Place,
    id: u64,
    table: Ref,
    file: &StagedFile<F>,
) -> Result<DataFileRow, NoMemory>
    requires { HasIds place.now }
    ensures { IfOk result (λ r. r ≡ parts.file_row (tables_of rows.now) place.now.begin place.now.next (creations_of
        place.now.made.now) id (record { table = table; file = named_staged_file F.name F.size file.now })) }
{
    Ok(DataFileRow {
        data_file_id: id,
        begin_snapshot: place.begin,
        end_snapshot: None,
        table_id: table_id(place.next, place.made, table),
        path: file.file.name().copy(alloc)?,
        record_count: file.rows,
        file_size_bytes: file.file.size(),
        row_id_start: Some(first_row(rows, table)),
        weight: file.weight,
    })
}

/// Adds the rows of the staged files. Their ids count up from one on.
pub(crate) fn add_files<F: Held>(
    alloc: Global,
    adds: &mut Vec<CatRow>,
    rows: &CatRows,
    place: &Place,
    first_id: u64,
    staged: &[StagedTable<F>],
) -> Result<(), NoMemory>
    requires { HasIds place.now }
    ensures { OnOk result (adds.new.items ≡ adds.old.items
        ++ spec.file_adds (tables_of rows.now) place.now first_id (spec.files_in F.name F.size staged.now)) }
{
    let mut id = first_id;
    let mut rest = staged;
    while let [table, more @ ..] = rest {
        if let Some(file) = &table.fresh {
            adds.push(CatRow::DataFile(file_row(alloc, rows, place, id, table.table, file)?))?;
            id = next(id)?;
        }
        rest = more;
    }
    Ok(())
}

/// Adds the statistics of one file's columns.
fn add_stats(
    alloc: Global,
    adds: &mut Vec<CatRow>,
    file: u64,
    stats: &[ColStats],
) -> Result<(), NoMemory>
    requires { AllByRecursion HasTexts stats.now }
    ensures { OnOk result (adds.new.items ≡ adds.old.items ++ spec.stats_adds file stats.now) }
{
    let mut rest = stats;
    while let [column, more @ ..] = rest {
        adds.push(CatRow::FileColumnStats(stats_row(alloc, file, column)?))?;
        rest = more;
    }
    Ok(())
}

/// Adds the statistics of the staged files, whose ids count up from one on.
pub(crate) fn add_file_stats<F: Held>(
    alloc: Global,
    adds: &mut Vec<CatRow>,
    first_id: u64,
    staged: &[StagedTable<F>],
) -> Result<(), NoMemory>
    requires { AllByRecursion spec.HaveTexts (spec.files_in F.name F.size staged.now) }
    ensures { OnOk result (adds.new.items ≡ adds.old.items ++ spec.file_stats_adds first_id (spec.files_in F.name F.size staged.now)) }
{
    let mut id = first_id;
    let mut rest = staged;
    while let [table, more @ ..] = rest {
        if let Some(file) = &table.fresh {
            add_stats(alloc, adds, id, file.stats.as_slice())?;
            id = next(id)?;
        }
        rest = more;
    }
    Ok(())
}
