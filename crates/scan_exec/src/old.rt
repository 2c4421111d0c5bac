ghost use Rattle.std.specs.Prelude.{◌≡◌, ◌≤◌, ◌++◌, map, OnOk, IfOk, IfErr, IsErrOf};
ghost use Rattle.std.specs.Arc.{arc_value};
ghost use Rattle.lake_io.specs.Causes.{Rose};
ghost use Rattle.file_disk.specs.Folder.{Changes, Folder, Same, AddsNone};
ghost use Rattle.scan_exec.specs.Damage.{AreRead, IfDamage, IsFirstDamaged};
ghost use Rattle.scan_exec.specs.Picking.{short_rows};
ghost use Rattle.scan_exec.specs.Refusals.{IsNoAnswer};
ghost use Rattle.scan_exec.specs.Telling as spec;
ghost use Rattle.scan_exec.specs.declared.fault.ScanFault.TheVariants.{DiskFault};

use crate::choice::Choice;
use crate::fault::ScanFault;
use crate::files::push_files;
use crate::rows::push_inlined;
use cat_view::TableView;
use file_disk::FileDisk;
use lake_types::{Column, RowList};
use std::alloc::Global;

/// The chosen rows of a table of the version: those of its data files, and behind them those that lie in the
/// catalogue.
pub fn rows_before<D: FileDisk>(
    alloc: Global,
    disk: &mut D,
    choice: &Choice,
    columns: &[Column],
    table: &TableView<D::File>,
) -> Result<RowList, ScanFault>
    requires ids { spec.HaveIds table.now.files.items }
    ensures rows { IfOk result (λ rows. (folder : Folder)
        → spec.TellFiles D.File.name D.File.bytes folder table.now.files.items →
        rows ≡ short_rows choice.now.bound choice.now.fields.items
        (spec.rows_in D.File.name folder columns.now table.now.files.items)
        ++ short_rows choice.now.bound choice.now.fields.items (map (λ r. arc_value r) table.now.inlined.items)) }
    ensures untold { IfErr result IsNoAnswer }
    ensures damaged { IfErr result (λ why. IfDamage why (IsFirstDamaged D.File.name D.File.part D.File.bytes
        (D.part disk.old) (D.files disk.old) columns.now table.now.files.items)) }
    ensures read { OnOk result (AreRead D.File.name D.File.part D.File.bytes
        (D.part disk.old) (D.files disk.old) columns.now table.now.files.items) }
    ensures cause { IsErrOf result DiskFault → Rose (D.faults disk.old) (D.faults disk.new) }
    ensures later { D.faults disk.old ≤ D.faults disk.new }
    ensures opens { OnOk result (D.opens disk.new ≡ spec.reads table.now.files.items (D.opens disk.old)) }
    ensures files { Changes Same (D.files disk.old) (D.files disk.new) }
    ensures images { AddsNone (D.images disk.old) (D.images disk.new) }
    ensures part { D.part disk.new ≡ D.part disk.old }
{
    let mut rows = RowList::new(alloc);
    match push_files(
        alloc,
        disk,
        &mut rows,
        choice,
        columns,
        table.files.as_slice(),
    ) {
        Ok(()) => {}
        Err(why) => return Err(why),
    }
    match push_inlined(alloc, &mut rows, choice, table.inlined.as_slice()) {
        Ok(()) => Ok(rows),
        Err(_) => Err(ScanFault::Memory),
    }
}
