ghost use Rattle.std.specs.Prelude.{◌≡◌, ◌≢◌, ◌≤◌, ℕ, None, Some, length, option_map, IfOk, IfErr, IsSome, OnOk, IsErrOf};
ghost use Rattle.std.specs.List.{AllByRecursion};
ghost use Rattle.std.specs.Option.{option_copied};
ghost use Rattle.lake_io.specs.Causes.{Rose};
ghost use Rattle.lake_model.specs.Apply.{worked};
ghost use Rattle.lake_model.specs.Growth.{IsGrowth};
ghost use Rattle.file_disk.specs.Folder.{Changes, Folder, Same, AddsNone};
ghost use Rattle.cat_view.specs.Files.{Files};
ghost use Rattle.cat_view.specs.Named.{state_of};
ghost use Rattle.cat_view.specs.Views.{named_table, named_view};
ghost use Rattle.row_files.specs.Folders.{files_of};
ghost use Rattle.scan_exec.specs.Damage.{AreReadIn, IfDamage, IsDamagedIn};
ghost use Rattle.scan_exec.specs.Refusals.{refusal, told};
ghost use Rattle.scan_exec.specs.Scans as spec;
ghost use Rattle.scan_exec.specs.Telling.{HasViewIds, TellsView};
ghost use Rattle.scan_exec.specs.declared.fault.ScanFault.TheVariants.{DiskFault, Memory};

use crate::aim::{Aim, aim_of};
use crate::choice::choice_of;
use crate::fault::ScanFault;
use crate::scanned::Scan;
use crate::telling::{fault_of, told_of};
use cat_view::View;
use file_disk::{FileDisk, Held};
use lake_model::Txn;
use lake_types::{Pred, TableName, Words};
use std::alloc::Global;

/// How many data files the version's table has.
fn seen<F: Held>(aim: &Aim<'_, F>) -> u64
    ensures { result ≡ length (spec.files_in (option_map (named_table F.name) (option_copied aim.now.old))) }
{
    match aim.old {
        Some(table) => table.files.len() as u64,
        None => 0,
    }
}

/// The rows of a table that a transaction sees for which a test is true, or all where there is none; with the cells of
/// the columns of some names, or of all columns where there are no names. Every data file of the table is read.
pub fn scan<D: FileDisk>(
    alloc: Global,
    disk: &mut D,
    view: &View<D::File>,
    txn: &Txn,
    table: &TableName,
    test: Option<&Pred>,
    names: Option<&[Words]>,
) -> Result<Scan, ScanFault>
    requires grows { AllByRecursion IsGrowth txn.now.own }
    requires ids { HasViewIds view.now }
    ensures told { IfOk result (λ scan. (folder : Folder) (next : ℕ)
        → TellsView D.File.name D.File.bytes folder view.now →
        spec.IsScanOf (worked (state_of (files_of folder) next (named_view D.File.name view.now)) txn.now.own)
        table.now (option_copied names.entry) (option_copied test.entry) scan) }
    ensures accepted { OnOk result ((files : Files) (next : ℕ) →
        refusal (worked (state_of files next (named_view D.File.name view.now)) txn.now.own)
        table.now (option_copied names.entry) (option_copied test.entry) ≡ None) }
    ensures refused { IfErr result (λ why. why ≢ Memory → (files : Files) (next : ℕ) →
        refusal (worked (state_of files next (named_view D.File.name view.now)) txn.now.own)
        table.now (option_copied names.entry) (option_copied test.entry) ≡ told table.now why) }
    ensures unread { IfErr result (λ why. IsSome (told table.now why) → D.opens disk.new ≡ D.opens disk.old) }
    ensures whole { OnOk result (AreReadIn D.File.name D.File.part D.File.bytes
        (D.part disk.old) (D.files disk.old)
        view.now txn.now.own table.now) }
    ensures damaged { IfErr result (λ why. IfDamage why (IsDamagedIn D.File.name D.File.part D.File.bytes
        (D.part disk.old) (D.files disk.old)
        view.now txn.now.own table.now)) }
    ensures seen { IfOk result (λ scan. scan.files_seen
        ≡ length (spec.files_before txn.now.own (named_view D.File.name view.now) table.now)) }
    ensures skipped { IfOk result (λ scan. scan.files_skipped ≡ 0) }
    ensures opens { OnOk result (D.opens disk.new
        ≡ spec.all_reads (spec.files_before txn.now.own (named_view D.File.name view.now) table.now) (D.opens disk.old)) }
    ensures cause { IsErrOf result DiskFault → Rose (D.faults disk.old) (D.faults disk.new) }
    ensures later { D.faults disk.old ≤ D.faults disk.new }
    ensures files { Changes Same (D.files disk.old) (D.files disk.new) }
    ensures images { AddsNone (D.images disk.old) (D.images disk.new) }
    ensures part { D.part disk.new ≡ D.part disk.old }
{
    let aim = match aim_of(alloc, view, txn.own.as_slice(), table) {
        Ok(aim) => aim,
        Err(why) => return Err(why),
    };
    let choice = match choice_of(alloc, aim.columns.as_slice(), names, test) {
        Ok(choice) => choice,
        Err(no) => return Err(fault_of(no)),
    };
    let files_seen = seen(&aim);
    match told_of(alloc, disk, &choice, &aim) {
        Ok(told) => Ok(Scan {
            rows: told.rows,
            refs: told.refs,
            files_seen,
            files_skipped: 0,
        }),
        Err(why) => Err(why),
    }
}
