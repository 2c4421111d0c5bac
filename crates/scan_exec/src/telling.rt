ghost use Rattle.std.specs.Prelude.{◌≡◌, ◌≢◌, ◌≤◌, ◌++◌, map, IfOk, IfSome, OnOk, IfErr, IsErrOf, option_map};
ghost use Rattle.std.specs.Option.{option_copied};
ghost use Rattle.lake_io.specs.Causes.{Rose};
ghost use Rattle.lake_types.specs.declared.stmt.TableName.{TableName};
ghost use Rattle.lake_types.specs.declared.value.Row.{Row as RowOf};
ghost use Rattle.lake_model.specs.Growth.{rows_for};
ghost use Rattle.lake_model.specs.Rows.{answer_to};
ghost use Rattle.lake_model.specs.declared.change.RowRef.TheVariants as row_ref;
ghost use Rattle.file_disk.specs.Folder.{Changes, Folder, Same, AddsNone};
ghost use Rattle.pred.specs.Binding.{told as fault_told};
ghost use Rattle.pred.specs.declared.fault.BindNo.TheVariants as bind_no;
ghost use Rattle.row_files.specs.Folders.{files_of};
ghost use Rattle.scan_exec.specs.Aims.{reads_before, rows_before as rows_of_old};
ghost use Rattle.scan_exec.specs.Damage.{AreReadOf, IfDamage, IsDamagedOf};
ghost use Rattle.scan_exec.specs.Own.{own_rows, refs_told, rows_told};
ghost use Rattle.scan_exec.specs.Picking.{short_rows};
ghost use Rattle.scan_exec.specs.Refusals.{IsNoAnswer, told as answer_told};
ghost use Rattle.scan_exec.specs.Telling.{HaveIds, TellFiles};
ghost use Rattle.scan_exec.specs.declared.fault.ScanFault.TheVariants.{DiskFault, Memory};

use crate::aim::Aim;
use crate::choice::Choice;
use crate::fault::ScanFault;
use crate::old::rows_before;
use crate::order::in_order;
use crate::own::{Home, Told, push_own};
use file_disk::FileDisk;
use lake_model::RowRef;
use lake_types::{NoMemory, Row, RowList};
use pred::BindNo;
use std::alloc::Global;

/// What a fault of names or of a test is to a scan.
pub fn fault_of(no: BindNo) -> ScanFault
    ensures told { (table : TableName) → answer_told table result ≡ option_map answer_to (fault_told no) }
    ensures disk { result ≢ DiskFault }
    ensures whole { IfDamage result (λ _. ⊥) }
    ensures memory { no ≡ bind_no.Memory → result ≡ Memory }
{
    match no {
        BindNo::NoColumn { name } => ScanFault::NoColumn { name },
        BindNo::WrongType { name } => ScanFault::WrongType { name },
        BindNo::Memory => ScanFault::Memory,
    }
}

/// The chosen rows of the version's table, rising by id; none where the own list creates the table.
fn old_rows<D: FileDisk>(
    alloc: Global,
    disk: &mut D,
    choice: &Choice,
    aim: &Aim<'_, D::File>,
) -> Result<RowList, ScanFault>
    requires ids { IfSome (option_copied aim.now.old) (λ x. HaveIds x.files.items) }
    ensures rows { IfOk result (λ rows. (folder : Folder)
        → IfSome (option_copied aim.now.old) (λ x. TellFiles D.File.name D.File.bytes folder x.files.items) →
        rows ≡ short_rows choice.now.bound choice.now.fields.items
        (rows_of_old D.File.name (files_of folder) (option_copied aim.now.old))) }
    ensures untold { IfErr result IsNoAnswer }
    ensures damaged { IfErr result (λ why. IfDamage why (IsDamagedOf D.File.name D.File.part D.File.bytes
        (D.part disk.old) (D.files disk.old) (option_copied aim.now.old))) }
    ensures read { OnOk result (AreReadOf D.File.name D.File.part D.File.bytes
        (D.part disk.old) (D.files disk.old) (option_copied aim.now.old)) }
    ensures cause { IsErrOf result DiskFault → Rose (D.faults disk.old) (D.faults disk.new) }
    ensures later { D.faults disk.old ≤ D.faults disk.new }
    ensures opens { OnOk result (D.opens disk.new ≡ reads_before (option_copied aim.now.old) (D.opens disk.old)) }
    ensures files { Changes Same (D.files disk.old) (D.files disk.new) }
    ensures images { AddsNone (D.images disk.old) (D.images disk.new) }
    ensures part { D.part disk.new ≡ D.part disk.old }
{
    let Some(table) = aim.old else {
        return Ok(RowList::new(alloc));
    };
    let rows = match rows_before(alloc, disk, choice, table.columns.as_slice(), table) {
        Ok(rows) => rows,
        Err(why) => return Err(why),
    };
    match in_order(rows) {
        Ok(rows) => Ok(rows),
        Err(_) => Err(ScanFault::Memory),
    }
}

/// The references of rows of a version.
fn old_refs(alloc: Global, rows: &[Row]) -> Result<Vec<RowRef>, NoMemory>
    ensures { IfOk result (λ refs. refs.items ≡ map (λ (r : RowOf). row_ref.Old r.id) rows.now) }
{
    let mut refs = Vec::with_capacity(alloc, rows.len())?;
    for row in rows {
        refs.push(RowRef::Old(row.id))?;
    }
    Ok(refs)
}

/// The old rows told, with their references.
fn begun(alloc: Global, rows: RowList) -> Result<Told, NoMemory>
    ensures rows { IfOk result (λ told. told.rows ≡ rows) }
    ensures refs { IfOk result (λ told. told.refs.items ≡ map (λ (r : RowOf). row_ref.Old r.id) rows) }
    ensures place { IfOk result (λ told. told.place ≡ 0) }
{
    let refs = old_refs(alloc, rows.as_slice())?;
    Ok(Told {
        rows,
        refs,
        place: 0,
    })
}

/// The chosen rows of an aim, and behind them those that the own list inserts.
pub fn told_of<D: FileDisk>(
    alloc: Global,
    disk: &mut D,
    choice: &Choice,
    aim: &Aim<'_, D::File>,
) -> Result<Told, ScanFault>
    requires ids { IfSome (option_copied aim.now.old) (λ x. HaveIds x.files.items) }
    ensures rows { IfOk result (λ told. (folder : Folder)
        → IfSome (option_copied aim.now.old) (λ x. TellFiles D.File.name D.File.bytes folder x.files.items) →
        told.rows ≡ short_rows choice.now.bound choice.now.fields.items
        (rows_of_old D.File.name (files_of folder) (option_copied aim.now.old))
        ++ rows_told choice.now.bound choice.now.fields.items
        (own_rows aim.now.columns aim.now.next_row 0 (rows_for aim.now.table aim.now.own.now))) }
    ensures refs { IfOk result (λ told. (folder : Folder)
        → IfSome (option_copied aim.now.old) (λ x. TellFiles D.File.name D.File.bytes folder x.files.items) →
        told.refs.items ≡ map (λ (r : RowOf). row_ref.Old r.id) (short_rows choice.now.bound choice.now.fields.items
        (rows_of_old D.File.name (files_of folder) (option_copied aim.now.old)))
        ++ refs_told choice.now.bound
        (own_rows aim.now.columns aim.now.next_row 0 (rows_for aim.now.table aim.now.own.now))) }
    ensures untold { IfErr result IsNoAnswer }
    ensures damaged { IfErr result (λ why. IfDamage why (IsDamagedOf D.File.name D.File.part D.File.bytes
        (D.part disk.old) (D.files disk.old) (option_copied aim.now.old))) }
    ensures read { OnOk result (AreReadOf D.File.name D.File.part D.File.bytes
        (D.part disk.old) (D.files disk.old) (option_copied aim.now.old)) }
    ensures cause { IsErrOf result DiskFault → Rose (D.faults disk.old) (D.faults disk.new) }
    ensures later { D.faults disk.old ≤ D.faults disk.new }
    ensures opens { OnOk result (D.opens disk.new ≡ reads_before (option_copied aim.now.old) (D.opens disk.old)) }
    ensures files { Changes Same (D.files disk.old) (D.files disk.new) }
    ensures images { AddsNone (D.images disk.old) (D.images disk.new) }
    ensures part { D.part disk.new ≡ D.part disk.old }
{
    let rows = match old_rows(alloc, disk, choice, aim) {
        Ok(rows) => rows,
        Err(why) => return Err(why),
    };
    let mut told = match begun(alloc, rows) {
        Ok(told) => told,
        Err(_) => return Err(ScanFault::Memory),
    };
    let home = Home {
        table: aim.table,
        columns: aim.columns.as_slice(),
        next_row: aim.next_row,
    };
    match push_own(alloc, &mut told, choice, &home, aim.own) {
        Ok(()) => Ok(told),
        Err(_) => Err(ScanFault::Memory),
    }
}
