ghost use Rattle.std.specs.Prelude.{◌≡◌, ◌≢◌, ◌≤◌, ◌⊎◌, false, ℕ, List, None, IfErr, IfOk, IfSome, IsErrOf, IsSome, OnOk};
ghost use Rattle.std.specs.List.{AllByRecursion};
ghost use Rattle.std.specs.Option.{option_copied};
ghost use Rattle.lake_io.specs.Causes.{Rose};
ghost use Rattle.lake_types.specs.declared.stmt.Stmt.TheVariants as stmt;
ghost use Rattle.lake_model.specs.Apply.{worked};
ghost use Rattle.lake_model.specs.Growth.{IsGrowth};
ghost use Rattle.lake_model.specs.Step as step;
ghost use Rattle.lake_model.specs.declared.answer.Answer.TheVariants as answer;
ghost use Rattle.file_disk.specs.Folder.{Changes, Folder, Same};
ghost use Rattle.cat_view.specs.Files.{Files};
ghost use Rattle.cat_view.specs.Named.{state_of};
ghost use Rattle.cat_view.specs.Views.{named_view};
ghost use Rattle.row_files.specs.Folders.{files_of};
ghost use Rattle.scan_exec.specs.Damage.{AreReadIn, IfDamage, IsDamagedIn};
ghost use Rattle.scan_exec.specs.Refusals.{refusal, told};
ghost use Rattle.scan_exec.specs.Scans.{IsScanOf, all_reads, files_before};
ghost use Rattle.scan_exec.specs.Telling.{HasViewIds, TellsView};
ghost use Rattle.scan_exec.specs.declared.fault.ScanFault.TheVariants.{DiskFault, Memory};
ghost use Rattle.session.specs.Held.{IsGoodIn, number_of, open_of, opened_in, own_of};
ghost use Rattle.session.specs.Select as spec;
ghost use Rattle.session.specs.Turns.{IsTurnOver, is_keeper_fault};

use crate::replies::only;
use crate::rows::row_texts;
use crate::session::Session;
use cat_view::View;
use file_disk::{FileDisk, Held};
use lake_model::{Answer, Reply, Txn, WordsList};
use lake_types::{Copied, Item, NoMemory, Pred, TableName, Words};
use scan_exec::{Scan, ScanFault, scan};
use std::alloc::Global;

/// The names of the columns that are shown.
fn names_of(alloc: Global, items: &[Item]) -> Result<WordsList, NoMemory>
    ensures { IfOk result (λ names. names ≡ spec.names_of items.now) }
{
    let mut names = WordsList::new(alloc);
    for item in items {
        match item {
            Item::Column { name } => names.push(name.copy(alloc)?)?,
            Item::RowId => {}
        }
    }
    Ok(names)
}

/// The names of the columns that are read; none where all are.
fn names_read<'a>(items: &[Item], names: &'a WordsList) -> Option<&'a [Words]>
    requires { names.now ≡ spec.names_of items.now }
    ensures { option_copied result ≡ spec.names_read items.now }
{
    if items.is_empty() {
        None
    } else {
        Some(names.as_slice())
    }
}

/// The rows that are shown, with the cells of the columns that items name, or of all columns.
fn scan_for<D: FileDisk>(
    alloc: Global,
    disk: &mut D,
    view: &View<D::File>,
    txn: &Txn,
    table: &TableName,
    items: &[Item],
    test: Option<&Pred>,
) -> Result<Scan, ScanFault>
    requires grows { AllByRecursion IsGrowth txn.now.own }
    requires ids { HasViewIds view.now }
    ensures told { IfOk result (λ scan. (folder : Folder) (next : ℕ)
        → TellsView D.File.name D.File.bytes folder view.now →
        IsScanOf (worked (state_of (files_of folder) next (named_view D.File.name view.now)) txn.now.own)
        table.now (spec.names_read items.now) (option_copied test.entry) scan) }
    ensures accepted { OnOk result ((files : Files) (next : ℕ) →
        refusal (worked (state_of files next (named_view D.File.name view.now)) txn.now.own)
        table.now (spec.names_read items.now) (option_copied test.entry) ≡ None) }
    ensures refused { IfErr result (λ why. why ≢ Memory → (files : Files) (next : ℕ) →
        refusal (worked (state_of files next (named_view D.File.name view.now)) txn.now.own)
        table.now (spec.names_read items.now) (option_copied test.entry) ≡ told table.now why) }
    ensures unread { IfErr result (λ why. IsSome (told table.now why) → D.opens disk.new ≡ D.opens disk.old) }
    ensures damaged { IfErr result (λ why. IfDamage why (IsDamagedIn D.File.name D.File.part D.File.bytes
        (D.part disk.old) (D.files disk.old) view.now txn.now.own table.now)) }
    ensures whole { OnOk result (AreReadIn D.File.name D.File.part D.File.bytes
        (D.part disk.old) (D.files disk.old) view.now txn.now.own table.now) }
    ensures opens { OnOk result (D.opens disk.new
        ≡ all_reads (files_before txn.now.own (named_view D.File.name view.now) table.now) (D.opens disk.old)) }
    ensures cause { IsErrOf result DiskFault → Rose (D.faults disk.old) (D.faults disk.new) }
    ensures later { D.faults disk.old ≤ D.faults disk.new }
    ensures files { Changes Same (D.files disk.old) (D.files disk.new) }
    ensures part { D.part disk.new ≡ D.part disk.old }
{
    match names_of(alloc, items) {
        Ok(names) => scan(
            alloc,
            disk,
            view,
            txn,
            table,
            test,
            names_read(items, &names),
        ),
        Err(_) => Err(ScanFault::Memory),
    }
}

/// The reply that tells rows.
fn told_rows(alloc: Global, items: &[Item], scan: &Scan) -> Reply
    ensures { (result ≡ spec.rows_reply items.now scan.now.rows) ⊎ (result ≡ step.only answer.Memory) }
{
    let n = scan.rows.len() as u64;
    match row_texts(alloc, items, scan.rows.as_slice()) {
        Ok(rows) => Reply {
            rows,
            last: Answer::Number { n },
        },
        Err(_) => only(alloc, Answer::Memory),
    }
}

/// The answer that a fault of a scan is.
fn fault_answer(alloc: Global, table: &TableName, why: ScanFault) -> Result<Answer, NoMemory>
    ensures { IfOk result (λ a. a ≡ spec.fault_answer table.now why) }
{
    match why {
        ScanFault::NoSchema => Ok(Answer::NoSchema {
            name: table.schema.copy(alloc)?,
        }),
        ScanFault::NoTable => Ok(Answer::NoTable {
            table: table.copy(alloc)?,
        }),
        ScanFault::NoColumn { name } => Ok(Answer::NoColumn { name }),
        ScanFault::WrongType { name } => Ok(Answer::WrongType { name }),
        ScanFault::DiskFault => Ok(Answer::Disk),
        ScanFault::Damaged { name } => Ok(Answer::Damaged { name }),
        ScanFault::Memory => Ok(Answer::Memory),
    }
}

/// The reply that tells a fault of a scan.
fn told_fault(alloc: Global, table: &TableName, why: ScanFault) -> Reply
    ensures { (result ≡ step.only (spec.fault_answer table.now why)) ⊎ (result ≡ step.only answer.Memory) }
{
    match fault_answer(alloc, table, why) {
        Ok(answer) => only(alloc, answer),
        Err(_) => only(alloc, Answer::Memory),
    }
}

/// Answers a SELECT over a view and a transaction on it.
fn selected<D: FileDisk>(
    alloc: Global,
    disk: &mut D,
    view: &View<D::File>,
    txn: &Txn,
    table: &TableName,
    items: &[Item],
    test: Option<&Pred>,
) -> Reply
    requires grows { AllByRecursion IsGrowth txn.now.own }
    requires ids { HasViewIds view.now }
    ensures selected { (folder : Folder) (next : ℕ) → TellsView D.File.name D.File.bytes folder view.now →
        spec.IsSelected (worked (state_of (files_of folder) next (named_view D.File.name view.now)) txn.now.own)
        table.now items.now (option_copied test.entry) result }
    ensures reads { spec.Reads (files_before txn.now.own (named_view D.File.name view.now) table.now) result.last
        (D.opens disk.old) (D.opens disk.new) }
    ensures damaged { (name : List ℕ) → result.last ≡ answer.Damaged name →
        IsDamagedIn D.File.name D.File.part D.File.bytes (D.part disk.old) (D.files disk.old)
        view.now txn.now.own table.now name }
    ensures whole { (n : ℕ) → result.last ≡ answer.Number n →
        AreReadIn D.File.name D.File.part D.File.bytes (D.part disk.old) (D.files disk.old)
        view.now txn.now.own table.now }
    ensures keeper { is_keeper_fault result.last ≡ false }
    ensures untaken { (name : List ℕ) → result.last ≢ answer.NameTaken name }
    ensures disk { result.last ≡ answer.Disk → Rose (D.faults disk.old) (D.faults disk.new) }
    ensures later { D.faults disk.old ≤ D.faults disk.new }
    ensures files { Changes Same (D.files disk.old) (D.files disk.new) }
    ensures part { D.part disk.new ≡ D.part disk.old }
{
    match scan_for(alloc, disk, view, txn, table, items, test) {
        Ok(scan) => told_rows(alloc, items, &scan),
        Err(why) => told_fault(alloc, table, why),
    }
}

impl<F: Held> Session<F> {
    /// SELECT.
    pub(crate) fn select<D: FileDisk<File = F>>(
        &self,
        alloc: Global,
        disk: &mut D,
        table: &TableName,
        items: &[Item],
        test: Option<&Pred>,
    ) -> Reply
        requires good { IsGoodIn F.name (open_of self.now) }
        ensures turn { IfSome (D.files disk.old) (λ folder. IsTurnOver (files_of folder)
            (opened_in F.name F.size F.bytes (open_of self.now)) (own_of self.now) (number_of self.now)
            (stmt.Select table.now items.now (option_copied test.entry)) result (own_of self.now)) }
        ensures reads { spec.Reads (spec.files_at F.name (open_of self.now) table.now) result.last
            (D.opens disk.old) (D.opens disk.new) }
        ensures damaged { (name : List ℕ) → result.last ≡ answer.Damaged name →
            spec.IsDamagedAt F.name F.part F.bytes (D.part disk.old) (D.files disk.old)
            (open_of self.now) table.now name }
        ensures whole { (n : ℕ) → result.last ≡ answer.Number n →
            spec.AreReadAt F.name F.part F.bytes (D.part disk.old) (D.files disk.old)
            (open_of self.now) table.now }
        ensures keeper { is_keeper_fault result.last ≡ false }
        ensures untaken { (name : List ℕ) → result.last ≢ answer.NameTaken name }
        ensures disk { result.last ≡ answer.Disk → Rose (D.faults disk.old) (D.faults disk.new) }
        ensures later { D.faults disk.old ≤ D.faults disk.new }
        ensures files { Changes Same (D.files disk.old) (D.files disk.new) }
        ensures part { D.part disk.new ≡ D.part disk.old }
    {
        match &self.open_txn {
            Some(buf) => selected(alloc, disk, buf.view(), buf.txn(), table, items, test),
            None => only(alloc, Answer::NoTransaction),
        }
    }
}
