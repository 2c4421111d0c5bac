ghost use Rattle.std.specs.Prelude.{◌≡◌, ◌++◌, ◌∷◌, [], IfOk, OnOk, if◌then◌else◌};
ghost use Rattle.std.specs.Option.{option_copied};
ghost use Rattle.indexmap.specs.IndexMap.{get};
ghost use Rattle.lake_model.specs.Apply.{is_ref};
ghost use Rattle.cat_view.specs.Views.{named_tables};
ghost use Rattle.lake_model.specs.declared.change.Ref.TheVariants.{New, Old};
ghost use Rattle.row_files.specs.Growing.{is_some_row};
ghost use Rattle.row_files.specs.Own as spec;

use crate::fresh::rows_at;
use crate::own::{OwnTable, OwnTables, next_created};
use cat_view::TableView;
use file_disk::Held;
use lake_model::{Change, Ref};
use lake_types::NoMemory;
use std::alloc::Global;
use std::sync::Arc;

/// A table that needs a file. The place is that of the table in its version, or that of the change that creates it.
#[derive(Clone, Copy)]
pub struct Job {
    pub table: Ref,
    pub place: usize,
}

/// Whether the change at a place of a list inserts a row.
fn has_row(own: &[Change], place: usize) -> bool
    ensures { result ≡ is_some_row (spec.rows_at own.now place) }
{
    !rows_at(own, place).is_empty()
}

fn any_row(own: &[Change], places: &[usize]) -> bool
    ensures { result ≡ spec.any_row own.now places.now }
{
    places.iter().any(|place| has_row(own, *place))
}

fn needs_file(own: &[Change], kept: Option<&OwnTable>) -> bool
    ensures { result ≡ spec.needs_file own.now (option_copied kept.entry) }
{
    match kept {
        Some(table) => !table.is_dropped && any_row(own, table.inserts.as_slice()),
        None => false,
    }
}

/// Adds a table, if it needs a file.
fn add_job(
    jobs: &mut Vec<Job>,
    own: &[Change],
    kept: &OwnTables,
    table: Ref,
    place: usize,
) -> Result<(), NoMemory>
    ensures { OnOk result (jobs.new.items ≡ jobs.old.items
        ++ spec.job_if (spec.needs_file own.now (get is_ref kept.now table)) table place) }
{
    if needs_file(own, kept.get(&table)) {
        jobs.push(Job { table, place })?;
    }
    Ok(())
}

/// Adds those of a version's tables that need a file.
fn add_old<F: Held>(
    jobs: &mut Vec<Job>,
    tables: &[Arc<TableView<F>>],
    own: &[Change],
    kept: &OwnTables,
) -> Result<(), NoMemory>
    ensures { OnOk result (jobs.new.items ≡ jobs.old.items
        ++ spec.old_jobs own.now (get is_ref kept.now) 0 (named_tables F.name tables.now)) }
{
    for place in 0..tables.len() {
        add_job(jobs, own, kept, Ref::Old(tables[place].head.id), place)?;
    }
    Ok(())
}

/// Adds a table that a change creates, if it needs a file. So many tables were created before.
fn add_created(
    jobs: &mut Vec<Job>,
    own: &[Change],
    kept: &OwnTables,
    created: u64,
    place: usize,
    change: &Change,
) -> Result<(), NoMemory>
    ensures { OnOk result (jobs.new.items ≡ jobs.old.items ++ (if spec.creates_table change.now
        then spec.job_if (spec.needs_file own.now (get is_ref kept.now (New created))) (New created) place else [])) }
{
    match change {
        Change::CreateTable { .. } => add_job(jobs, own, kept, Ref::New(created), place),
        _ => Ok(()),
    }
}

/// Adds those of the tables that a list creates that need a file.
fn add_made(jobs: &mut Vec<Job>, own: &[Change], kept: &OwnTables) -> Result<(), NoMemory>
    ensures { OnOk result (jobs.new.items ≡ jobs.old.items
        ++ spec.made_jobs own.now (get is_ref kept.now) 0 0 own.now) }
{
    let mut created = 0u64;
    for place in 0..own.len() {
        let change = &own[place];
        add_created(jobs, own, kept, created, place, change)?;
        created = next_created(created, change);
    }
    Ok(())
}

/// The tables that need a file: those of the version in their order, and behind them the created ones.
pub fn jobs_of<F: Held>(
    alloc: Global,
    tables: &[Arc<TableView<F>>],
    own: &[Change],
    kept: &OwnTables,
) -> Result<Vec<Job>, NoMemory>
    ensures { IfOk result (λ jobs. jobs.items ≡ spec.old_jobs own.now (get is_ref kept.now) 0 (named_tables F.name
        tables.now) ++ spec.made_jobs own.now (get is_ref kept.now) 0 0 own.now) }
{
    let mut jobs = Vec::new(alloc);
    add_old(&mut jobs, tables, own, kept)?;
    add_made(&mut jobs, own, kept)?;
    Ok(jobs)
}
