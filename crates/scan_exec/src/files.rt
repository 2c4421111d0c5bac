ghost use Rattle.std.specs.Prelude.{◌≡◌, ◌≤◌, ◌++◌, OnOk, IfErr, IsErrOf};
ghost use Rattle.std.specs.Arc.{arc_value};
ghost use Rattle.lake_io.specs.Causes.{Rose};
ghost use Rattle.cat_view.specs.Named.{live_rows};
ghost use Rattle.cat_view.specs.Views.{named_file};
ghost use Rattle.file_disk.specs.Folder.{Changes, Folder, Same, AddsNone};
ghost use Rattle.row_files.specs.Folders.{files_of};
ghost use Rattle.scan_exec.specs.Damage.{AreRead, IfDamage, IsDamaged, IsFirstDamaged, IsRead};
ghost use Rattle.scan_exec.specs.Picking.{short_rows};
ghost use Rattle.scan_exec.specs.Refusals.{IsNoAnswer};
ghost use Rattle.scan_exec.specs.Telling as spec;
ghost use Rattle.scan_exec.specs.declared.fault.ScanFault.TheVariants.{DiskFault};

use crate::choice::Choice;
use crate::fault::ScanFault;
use crate::rows::push_sheet;
use cat_view::LiveFile;
use file_disk::FileDisk;
use lake_types::{Column, RowList};
use row_files::{ReadNo, read_live};
use std::alloc::Global;
use std::sync::Arc;

/// Adds the chosen rows of a data file, which is read and let go.
fn push_file<D: FileDisk>(
    alloc: Global,
    disk: &mut D,
    rows: &mut RowList,
    choice: &Choice,
    columns: &[Column],
    file: &LiveFile<D::File>,
) -> Result<(), ScanFault>
    requires ids { spec.HasIds file.now }
    ensures rows { OnOk result ((folder : Folder) → spec.TellsFile D.File.name D.File.bytes folder file.now →
        rows.new ≡ rows.old ++ short_rows choice.now.bound choice.now.fields.items
        (live_rows (files_of folder) columns.now (named_file D.File.name file.now))) }
    ensures untold { IfErr result IsNoAnswer }
    ensures damaged { IfErr result (λ why. IfDamage why (IsDamaged D.File.name D.File.part D.File.bytes
        (D.part disk.old) (D.files disk.old) columns.now file.now)) }
    ensures read { OnOk result (IsRead D.File.name D.File.part D.File.bytes
        (D.part disk.old) (D.files disk.old) columns.now file.now) }
    ensures cause { IsErrOf result DiskFault → Rose (D.faults disk.old) (D.faults disk.new) }
    ensures later { D.faults disk.old ≤ D.faults disk.new }
    ensures opens { OnOk result (D.opens disk.new ≡ spec.reads_of file.now (D.opens disk.old)) }
    ensures files { Changes Same (D.files disk.old) (D.files disk.new) }
    ensures images { AddsNone (D.images disk.old) (D.images disk.new) }
    ensures part { D.part disk.new ≡ D.part disk.old }
{
    let sheet = match read_live(alloc, disk, file, columns) {
        Ok(sheet) => sheet,
        Err(ReadNo::DiskFault) => return Err(ScanFault::DiskFault),
        Err(ReadNo::Damaged { name }) => return Err(ScanFault::Damaged { name }),
        Err(ReadNo::Memory) => return Err(ScanFault::Memory),
    };
    match push_sheet(alloc, rows, choice, &sheet) {
        Ok(()) => Ok(()),
        Err(_) => Err(ScanFault::Memory),
    }
}

/// Adds the chosen rows of some data files, one file after the other.
#[tactic(auto, using(crate::proofs::FileLemmas::files))]
pub fn push_files<D: FileDisk>(
    alloc: Global,
    disk: &mut D,
    rows: &mut RowList,
    choice: &Choice,
    columns: &[Column],
    files: &[Arc<LiveFile<D::File>>],
) -> Result<(), ScanFault>
    requires ids { spec.HaveIds files.now }
    ensures rows { OnOk result ((folder : Folder) → spec.TellFiles D.File.name D.File.bytes folder files.now →
        rows.new ≡ rows.old ++ short_rows choice.now.bound choice.now.fields.items
        (spec.rows_in D.File.name folder columns.now files.now)) }
    ensures untold { IfErr result IsNoAnswer }
    ensures damaged { IfErr result (λ why. IfDamage why (IsFirstDamaged D.File.name D.File.part D.File.bytes
        (D.part disk.old) (D.files disk.old) columns.now files.now)) }
    ensures read { OnOk result (AreRead D.File.name D.File.part D.File.bytes
        (D.part disk.old) (D.files disk.old) columns.now files.now) }
    ensures cause { IsErrOf result DiskFault → Rose (D.faults disk.old) (D.faults disk.new) }
    ensures later { D.faults disk.old ≤ D.faults disk.new }
    ensures opens { OnOk result (D.opens disk.new ≡ spec.reads files.now (D.opens disk.old)) }
    ensures files { Changes Same (D.files disk.old) (D.files disk.new) }
    ensures images { AddsNone (D.images disk.old) (D.images disk.new) }
    ensures part { D.part disk.new ≡ D.part disk.old }
{
    for file in files {
        match push_file(alloc, disk, rows, choice, columns, &**file) {
            Ok(()) => {}
            Err(why) => return Err(why),
        }
    }
    Ok(())
}
