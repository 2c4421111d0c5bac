ghost use Rattle.std.specs.Prelude.{◌≡◌, ◌++◌, ◌∷◌, min, map, option_map, IfOk, OnOk};
ghost use Rattle.std.specs.List.{AllByRecursion};
ghost use Rattle.std.specs.Option.{option_copied};
ghost use Rattle.lake_types.specs.declared.limits.TheConstants.{MAX_COUNTER as MAX};
ghost use Rattle.lake_model.specs.Growth.{made_tables};
ghost use Rattle.lake_model.specs.declared.change.Ref.TheVariants.{New};
ghost use Rattle.cat_rows.specs.Batches.{tables_of};
ghost use Rattle.cat_view.specs.Staged.{staged_for};
ghost use Rattle.cat_view.specs.StagedNames.{named_staged_file, named_staged_table};
ghost use Rattle.rebase.specs.Files.{files_in};
ghost use Rattle.rebase.specs.Made.{HasIds, creations_of};
ghost use Rattle.rebase.specs.Parts as parts;
ghost use Rattle.rebase.specs.Stats as spec;

use crate::creations::{next, table_id};
use crate::files::old_stats;
use crate::made::Place;
use cat_rows::{CatRow, CatRows, Key, TableStatsRow};
use cat_view::{StagedFile, StagedTable};
use file_disk::Held;
use lake_model::{Change, Ref, drops_table, is_ref};
use lake_types::NoMemory;
use lake_types::limits::MAX_COUNTER;

/// A size up to the last value of a counter.
fn capped(size: u64) -> u64
    ensures { result ≡ min MAX size }
{
    if size < MAX_COUNTER {
        size
    } else {
        MAX_COUNTER
    }
}

/// A table's statistics with the rows and the bytes of one more file.
fn restated<F: Held>(old: &TableStatsRow, file: &StagedFile<F>) -> TableStatsRow
    requires { spec.HasRoom old.now (named_staged_file F.name F.size file.now) }
    ensures { result ≡ parts.restated (named_staged_file F.name F.size file.now) old.now }
{
    TableStatsRow {
        table_id: old.table_id,
        record_count: old.record_count + file.rows,
        next_row_id: old.next_row_id + file.rows,
        next_field_id: old.next_field_id,
        file_size_bytes: capped(old.file_size_bytes.saturating_add(file.file.size())),
    }
}

/// Takes away the statistics of the tables that files were staged for, and adds them with these files.
pub(crate) fn restate<F: Held>(
    removes: &mut Vec<Key>,
    adds: &mut Vec<CatRow>,
    rows: &CatRows,
    staged: &[StagedTable<F>],
) -> Result<(), NoMemory>
    requires { AllByRecursion (spec.FitsIn (tables_of rows.now)) (files_in F.name F.size staged.now) }
    ensures removes { OnOk result (removes.new.items ≡ removes.old.items
        ++ spec.stats_keys (parts.old_stats_of (tables_of rows.now) (files_in F.name F.size staged.now))) }
    ensures adds { OnOk result (adds.new.items ≡ adds.old.items
        ++ spec.stats_adds (parts.restated_of (tables_of rows.now) (files_in F.name F.size staged.now))) }
{
    let mut rest = staged;
    while let [table, more @ ..] = rest {
        if let Some(file) = &table.fresh {
            if let Some(old) = old_stats(rows, table.table) {
                removes.push(Key::TableStats(old.table_id))?;
                adds.push(CatRow::TableStats(restated(old, file)))?;
            }
        }
        rest = more;
    }
    Ok(())
}

/// The file of fresh rows that was staged for a table.
fn file_for<F: Held>(staged: &[StagedTable<F>], table: Ref) -> Option<&StagedFile<F>>
    ensures { option_map (named_staged_file F.name F.size) (option_copied result)
        ≡ (staged_for (map (named_staged_table F.name F.size) staged.now) table).fresh }
{
    let mut rest = staged;
    while let [entry, more @ ..] = rest {
        if is_ref(entry.table, table) {
            return entry.fresh.as_ref();
        }
        rest = more;
    }
    None
}

/// The statistics of a created table.
fn made_stats<F: Held>(
    place: &Place,
    staged: &[StagedTable<F>],
    table: u64,
    next_field: u64,
) -> TableStatsRow
    requires { HasIds place.now }
    ensures { result ≡ spec.made_row place.now (map (named_staged_table F.name F.size) staged.now) (New table) next_field }
{
    let (rows, bytes) = match file_for(staged, Ref::New(table)) {
        Some(file) => (file.rows, file.file.size()),
        None => (0, 0),
    };
    TableStatsRow {
        table_id: table_id(place.next, place.made, Ref::New(table)),
        record_count: rows,
        next_row_id: rows,
        next_field_id: next_field,
        file_size_bytes: capped(bytes),
    }
}

/// Adds the statistics of the table that a change creates, unless the rest of the list drops it. The answer is the place
/// of the next created table.
#[tactic(auto, using(crate::proofs::StatsLemmas::one_made))]
fn add_if_made<F: Held>(
    adds: &mut Vec<CatRow>,
    place: &Place,
    staged: &[StagedTable<F>],
    tables: u64,
    change: &Change,
    rest: &[Change],
) -> Result<u64, NoMemory>
    requires { HasIds place.now }
    ensures { IfOk result (λ n. adds.new.items
        ++ spec.made_adds place.now (map (named_staged_table F.name F.size) staged.now) (made_tables n rest.now)
        ≡ adds.old.items
        ++ spec.made_adds place.now (map (named_staged_table F.name F.size) staged.now) (made_tables tables (change.now ∷ rest.now))) }
{
    let Change::CreateTable { columns, .. } = change else {
        return Ok(tables);
    };
    let next_table = next(tables)?;
    if drops_table(rest, Ref::New(tables)) {
        return Ok(next_table);
    }
    let next_field = next(columns.as_slice().len() as u64)?;
    adds.push(CatRow::TableStats(made_stats(place, staged, tables, next_field)))?;
    Ok(next_table)
}

/// Adds the statistics of the tables that a list creates and leaves.
pub(crate) fn add_made_stats<F: Held>(
    adds: &mut Vec<CatRow>,
    place: &Place,
    own: &[Change],
    staged: &[StagedTable<F>],
) -> Result<(), NoMemory>
    requires { HasIds place.now }
    ensures { OnOk result (adds.new.items ≡ adds.old.items
        ++ spec.made_adds place.now (map (named_staged_table F.name F.size) staged.now) (made_tables 0 own.now)) }
{
    let mut tables = 0;
    let mut rest = own;
    while let [change, more @ ..] = rest {
        tables = add_if_made(adds, place, staged, tables, change, more)?;
        rest = more;
    }
    Ok(())
}
