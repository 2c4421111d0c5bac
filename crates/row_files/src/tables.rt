ghost use Rattle.std.specs.Prelude.{◌≡◌, ◌≢◌, ◌≤◌, ◌∷◌, [], ℕ, List, map, None, Option, Some, All, IfErr, IfNone, IfOk, IfSome, OnOk, IsErrOf};
ghost use Rattle.std.specs.List.{AllByRecursion};
ghost use Rattle.lake_io.specs.Causes.{Rose};
ghost use Rattle.file_disk.specs.Folder.{Changes};
ghost use Rattle.indexmap.specs.IndexMap.{get};
ghost use Rattle.lake_model.specs.Apply.{is_ref};
ghost use Rattle.lake_model.specs.Fits.{Fits};
ghost use Rattle.lake_model.specs.Growth.{IsGrowth};
ghost use Rattle.lake_model.specs.State.{State};
ghost use Rattle.cat_view.specs.Staged.{IsStaged};
ghost use Rattle.cat_view.specs.Typed.{HoldsTyped};
ghost use Rattle.cat_view.specs.Views.{named_tables, named_view};
ghost use Rattle.row_files.specs.Folders.{files_of};
ghost use Rattle.row_files.specs.Growing.{HasTables, fresh_tables};
ghost use Rattle.cat_view.specs.Workable.{AreTables};
ghost use Rattle.row_files.specs.Own as own_spec;
ghost use Rattle.row_files.specs.Stages as spec;
ghost use Rattle.row_files.specs.Staging.{named_file};
ghost use Rattle.row_files.specs.declared.fault.StageNo.TheVariants as stage_no;

use crate::fault::StageNo;
use crate::fresh::stage_rows;
use crate::jobs::{Job, jobs_of};
use crate::own::{OwnTables, own_tables};
use cat_view::{Staged, StagedFile, StagedTable, TableView, View};
use file_disk::{FileDisk, Held};
use lake_io::Names;
use lake_model::{Change, Ref, Txn};
use lake_types::{Column, RowList};
use new_files::NewFileNo;
use std::alloc::Global;
use std::sync::Arc;

fn refused(why: NewFileNo) -> StageNo
    ensures { result ≡ spec.refusal why }
{
    match why {
        NewFileNo::DiskFault => StageNo::DiskFault,
        NewFileNo::Taken { name } => StageNo::Taken { name },
        NewFileNo::Memory => StageNo::Memory,
    }
}

/// A table with fresh rows alone.
fn only_fresh<F>(alloc: Global, table: Ref, file: StagedFile<F>) -> StagedTable<F>
    ensures fresh { result.fresh ≡ Some file }
    ensures whole { (name : F → List ℕ) (size : F → ℕ)
        → spec.named_table name size result ≡ spec.only_fresh table (named_file name size file) }
{
    StagedTable {
        table,
        fresh: Some(file),
        updated: None,
        merged: Vec::new(alloc),
        ended_files: Vec::new(alloc),
        inlined: RowList::new(alloc),
        inlined_fresh: 0,
        ended_rows: Vec::new(alloc),
        deletes: Vec::new(alloc),
    }
}

/// Adds a table with fresh rows alone.
fn add_fresh<F: Drop>(
    alloc: Global,
    tables: &mut Vec<StagedTable<F>>,
    table: Ref,
    file: StagedFile<F>,
) -> Result<(), StageNo>
    ensures added { OnOk result ((name : F → List ℕ) (size : F → ℕ)
        → spec.AddsFresh name size table file tables.old.items tables.new.items) }
    ensures refused { IfErr result (λ why. why ≡ stage_no.Memory) }
{
    tables.push(only_fresh(alloc, table, file))?;
    Ok(())
}

/// Stages the rows that changes at these places of a list insert into one more table.
#[tactic(auto, using(crate::proofs::StageLemmas::adding))]
fn stage_table<D: FileDisk, N: Names>(
    alloc: Global,
    disk: &mut D,
    names: &mut N,
    tables: &mut Vec<StagedTable<D::File>>,
    table: Ref,
    columns: &[Column],
    own: &[Change],
    places: &[usize],
) -> Result<(), StageNo>
    requires { spec.CanBeStaged (own_spec.fresh_at table columns.now own.now places.now) }
    ensures staged { OnOk result (spec.StagesMore D.File.name D.File.size D.File.bytes
        (own_spec.fresh_at table columns.now own.now places.now ∷ [])
        (N.drawn names.old) (N.drawn names.new) (D.files disk.old) (D.files disk.new)
        (D.images disk.old) (D.images disk.new) tables.old.items tables.new.items) }
    ensures taken { spec.IfTakenName result (spec.EndsAtTaken (N.drawn names.old) (N.drawn names.new)
        (D.files disk.old) (D.files disk.new)) }
    ensures taken_untold { spec.IfTakenName result (λ _.
        IfNone (D.files disk.old) (Rose (D.faults disk.old) (D.faults disk.new))) }
    ensures whole { IfErr result (λ why. (name : List ℕ) → why ≢ stage_no.Damaged name) }
    ensures cause { IsErrOf result stage_no.DiskFault → Rose (D.faults disk.old) (D.faults disk.new) }
    ensures later { D.faults disk.old ≤ D.faults disk.new }

    // On every answer.
    ensures wrote { spec.WroteThese (N.drawn names.old) (N.drawn names.new) (D.files disk.old) (D.files disk.new)
        (D.images disk.old) (D.images disk.new) }
    ensures stays { Changes spec.Stays (D.files disk.old) (D.files disk.new) }
    ensures opens { D.opens disk.new ≡ D.opens disk.old }
    ensures part { D.part disk.new ≡ D.part disk.old }
{
    let file = match stage_rows(alloc, disk, names, columns, own, places) {
        Ok(file) => file,
        Err(why) => return Err(refused(why)),
    };
    add_fresh(alloc, tables, table, file)
}

/// The columns of the table that a job is of.
fn columns_of<'a, F: Held>(
    tables: &'a [Arc<TableView<F>>],
    own: &'a [Change],
    job: Job,
) -> &'a [Column]
    ensures { result.now ≡ own_spec.columns_at (named_tables F.name tables.now) own.now job.table job.place }
{
    match job.table {
        Ref::Old(_) => match tables.get(job.place) {
            Some(table) => table.columns.as_slice(),
            None => &[],
        },
        Ref::New(_) => match own.get(job.place) {
            Some(Change::CreateTable { columns, .. }) => columns.as_slice(),
            _ => &[],
        },
    }
}

/// The places of the changes that insert into a table.
fn places_of(kept: &OwnTables, table: Ref) -> &[usize]
    ensures { result.now ≡ own_spec.inserts_of (get is_ref kept.now table) }
{
    match kept.get(&table) {
        Some(own) => own.inserts.as_slice(),
        None => &[],
    }
}

/// Stages the table of each job in turn.
#[tactic(auto, using(crate::proofs::StageLemmas::several))]
fn stage_jobs<D: FileDisk, N: Names>(
    alloc: Global,
    disk: &mut D,
    names: &mut N,
    tables: &[Arc<TableView<D::File>>],
    own: &[Change],
    kept: &OwnTables,
    jobs: &[Job],
) -> Result<Vec<StagedTable<D::File>>, StageNo>
    requires { All spec.CanBeStaged (map (own_spec.fresh_job (named_tables D.File.name tables.now) own.now
        (get is_ref kept.now)) jobs.now) }
    ensures staged { IfOk result (λ staged. spec.StagesTables D.File.name D.File.size D.File.bytes
        (map (own_spec.fresh_job (named_tables D.File.name tables.now) own.now (get is_ref kept.now)) jobs.now)
        (N.drawn names.old) (N.drawn names.new) (D.files disk.old) (D.files disk.new)
        (D.images disk.old) (D.images disk.new) staged.items) }
    ensures taken { spec.IfTakenName result (spec.EndsAtTaken (N.drawn names.old) (N.drawn names.new)
        (D.files disk.old) (D.files disk.new)) }
    ensures taken_untold { spec.IfTakenName result (λ _.
        IfNone (D.files disk.old) (Rose (D.faults disk.old) (D.faults disk.new))) }
    ensures whole { IfErr result (λ why. (name : List ℕ) → why ≢ stage_no.Damaged name) }
    ensures cause { IsErrOf result stage_no.DiskFault → Rose (D.faults disk.old) (D.faults disk.new) }
    ensures later { D.faults disk.old ≤ D.faults disk.new }

    // On every answer.
    ensures wrote { spec.WroteThese (N.drawn names.old) (N.drawn names.new) (D.files disk.old) (D.files disk.new)
        (D.images disk.old) (D.images disk.new) }
    ensures stays { Changes spec.Stays (D.files disk.old) (D.files disk.new) }
    ensures opens { D.opens disk.new ≡ D.opens disk.old }
    ensures part { D.part disk.new ≡ D.part disk.old }
{
    let mut staged = Vec::new(alloc);
    for job in jobs {
        let columns = columns_of(tables, own, *job);
        let places = places_of(kept, job.table);
        match stage_table(
            alloc,
            disk,
            names,
            &mut staged,
            job.table,
            columns,
            own,
            places,
        ) {
            Ok(()) => {}
            Err(why) => return Err(why),
        }
    }
    Ok(staged)
}

/// Writes the fresh rows that a transaction leaves, for each table a new data file of its own, which is synced: tables
/// of the view in their order, and behind them the created ones in order of creation. A table that isn't there after
/// the list, or that has no fresh rows, stages nothing.
///
/// The own list only creates, drops and inserts, and may stand on the view. `Taken` tells the name of the last number
/// that was drawn, and no answer is `Damaged`. After a refusal the files that were made before stay, under names that
/// nothing tells, and a part of one more may lie there. What was there before stays on every answer.
pub fn stage<D: FileDisk, N: Names>(
    alloc: Global,
    disk: &mut D,
    names: &mut N,
    view: &View<D::File>,
    txn: &Txn,
) -> Result<Staged<D::File>, StageNo>
    requires growth { AllByRecursion IsGrowth txn.now.own }
    requires tables { AreTables (named_view D.File.name view.now).tables }
    requires fits { (state : State) × HasTables (named_view D.File.name view.now) state × Fits state txn.now.own }
    ensures staged { IfOk result (λ staged. spec.StagesTables D.File.name D.File.size D.File.bytes
        (fresh_tables (named_view D.File.name view.now) txn.now.own)
        (N.drawn names.old) (N.drawn names.new) (D.files disk.old) (D.files disk.new)
        (D.images disk.old) (D.images disk.new) staged.tables.items) }
    ensures stands { IfOk result (λ staged. IfSome (D.files disk.new) (λ folder. (state : State)
        → HasTables (named_view D.File.name view.now) state → Fits state txn.now.own
        → IsStaged (files_of folder) (named_view D.File.name view.now) state txn.now.own
        (spec.named_tables D.File.name D.File.size staged.tables.items))) }
    ensures typed { IfOk result (λ staged. IfSome (D.files disk.new) (λ folder.
        AllByRecursion (HoldsTyped (files_of folder)) (spec.fresh_names D.File.name staged.tables.items))) }
    ensures told { IfOk result (λ staged. IfSome (D.files disk.new) (λ folder.
        AllByRecursion (spec.TellsBytes D.File.name D.File.size D.File.bytes folder)
        (spec.fresh_handles staged.tables.items))) }

    ensures taken { spec.IfTakenName result (spec.EndsAtTaken (N.drawn names.old) (N.drawn names.new)
        (D.files disk.old) (D.files disk.new)) }
    ensures taken_untold { spec.IfTakenName result (λ _.
        IfNone (D.files disk.old) (Rose (D.faults disk.old) (D.faults disk.new))) }
    ensures whole { IfErr result (λ why. (name : List ℕ) → why ≢ stage_no.Damaged name) }
    ensures cause { IsErrOf result stage_no.DiskFault → Rose (D.faults disk.old) (D.faults disk.new) }
    ensures later { D.faults disk.old ≤ D.faults disk.new }

    // On every answer.
    ensures wrote { spec.WroteThese (N.drawn names.old) (N.drawn names.new) (D.files disk.old) (D.files disk.new)
        (D.images disk.old) (D.images disk.new) }
    ensures stays { Changes spec.Stays (D.files disk.old) (D.files disk.new) }
    ensures opens { D.opens disk.new ≡ D.opens disk.old }
    ensures part { D.part disk.new ≡ D.part disk.old }
{
    let own = txn.own.as_slice();
    let Ok(kept) = own_tables(alloc, own) else {
        return Err(StageNo::Memory);
    };
    let tables = view.tables();
    let Ok(jobs) = jobs_of(alloc, tables, own, &kept) else {
        return Err(StageNo::Memory);
    };
    match stage_jobs(alloc, disk, names, tables, own, &kept, jobs.as_slice()) {
        Ok(staged) => Ok(Staged { tables: staged }),
        Err(why) => Err(why),
    }
}
