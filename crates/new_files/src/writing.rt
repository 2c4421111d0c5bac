ghost use Rattle.std.specs.Prelude.{◌≡◌, ◌≤◌, ◌↔◌, Some, length};
ghost use Rattle.std.specs.Prelude.{IfOk, IfSome, IfNone, OnSome, IsSome, IsErrOf};
ghost use Rattle.lake_io.specs.Causes.{Rose};
ghost use Rattle.file_disk.specs.Calls.{HasCause, AllHold};
ghost use Rattle.file_disk.specs.Folder.{Changes, MayBecomeAny, Same, StaysIfThere, Touches};
ghost use Rattle.file_disk.specs.declared.fault.DiskNo.TheVariants as disk_no;
ghost use Rattle.new_files.specs.Drawing.{Drew, IfTaken, Wrote, refusal};
ghost use Rattle.new_files.specs.Writing.{AddsBytes, MayLeave, Stays, Writes};
ghost use Rattle.new_files.specs.declared.fault.NewFileNo.TheVariants as new_file_no;

use crate::fault::NewFileNo;
use crate::names::file_name;
use file_disk::{DiskNo, FileDisk};
use lake_io::Names;
use lake_types::Words;
use std::alloc::Global;

/// Writes a whole file under a name that isn't there: it is created, its bytes are appended at once, and it
/// is synced.
///
/// `DiskNo::Exists` tells that the name is there; then nothing changed. After another refusal a part of the
/// file may lie under the name. What was there before stays on every answer.
pub fn write_as<D: FileDisk>(
    alloc: Global,
    disk: &mut D,
    name: &Words,
    bytes: &[u8],
) -> Result<D::File, DiskNo>
    ensures name { IfOk result (λ file. D.File.name file ≡ name.now) }
    ensures own_part { IfOk result (λ file. D.File.part file ≡ D.part disk.new) }
    ensures bytes { OnSome (D.files disk.old) (IfOk result (λ file. D.File.bytes file ≡ Some bytes.now)) }
    ensures size { OnSome (D.files disk.old) (IfOk result (λ file. D.File.size file ≡ length bytes.now)) }
    ensures durable { OnSome (D.files disk.old)
        (IfOk result (λ file. AllHold name.now bytes.now (D.images disk.new))) }

    ensures exists { IfSome (D.files disk.old) (λ old.
        IsErrOf result disk_no.Exists ↔ IsSome (old name.now)) }
    ensures exists_untold { IfNone (D.files disk.old)
        (IsErrOf result disk_no.Exists → Rose (D.faults disk.old) (D.faults disk.new)) }
    ensures cause { HasCause (D.faults disk.old) (D.faults disk.new) result }

    ensures files { Changes (Writes name.now bytes.now result) (D.files disk.old) (D.files disk.new) }
    ensures stays { Changes Stays (D.files disk.old) (D.files disk.new) }
    ensures images { Touches (MayLeave result) name.now (D.images disk.old) (D.images disk.new) }
    ensures opens { D.opens disk.new ≡ D.opens disk.old }
    ensures part { D.part disk.new ≡ D.part disk.old }
{
    let mut draft = match disk.create(alloc, name) {
        Ok(draft) => draft,
        Err(why) => return Err(why),
    };
    match disk.append(alloc, &mut draft, bytes) {
        Ok(()) => {}
        Err(why) => return Err(why),
    }
    match disk.sync(draft) {
        Ok(file) => Ok(file),
        Err((_draft, why)) => Err(why),
    }
}

/// The answer where the disk refused to write a file under a name.
fn refused(why: DiskNo, name: Words) -> NewFileNo
    ensures { result ≡ refusal why name }
{
    match why {
        DiskNo::Exists => NewFileNo::Taken { name },
        DiskNo::Failed => NewFileNo::DiskFault,
        DiskNo::Memory => NewFileNo::Memory,
    }
}

/// Writes a whole file under the name of the one number that it draws. `deletes` says whether it is a delete
/// file.
///
/// `NewFileNo::Taken` tells the name of that number, which is there; then nothing changed. After another
/// refusal a part of the file may lie under the name.
#[tactic(auto, using(crate::proofs::DrawLemmas::drawing))]
pub fn write_new<D: FileDisk, N: Names>(
    alloc: Global,
    disk: &mut D,
    names: &mut N,
    deletes: bool,
    bytes: &[u8],
) -> Result<D::File, NewFileNo>
    ensures name { IfOk result (λ file.
        Drew deletes (N.drawn names.old) (N.drawn names.new) (D.File.name file)) }
    ensures own_part { IfOk result (λ file. D.File.part file ≡ D.part disk.new) }
    ensures bytes { OnSome (D.files disk.old) (IfOk result (λ file. D.File.bytes file ≡ Some bytes.now)) }
    ensures size { OnSome (D.files disk.old) (IfOk result (λ file. D.File.size file ≡ length bytes.now)) }
    ensures files { IfOk result (λ file.
        Changes (AddsBytes (D.File.name file) bytes.now) (D.files disk.old) (D.files disk.new)) }
    ensures images { IfOk result (λ file.
        Touches MayBecomeAny (D.File.name file) (D.images disk.old) (D.images disk.new)) }
    ensures durable { OnSome (D.files disk.old)
        (IfOk result (λ file. AllHold (D.File.name file) bytes.now (D.images disk.new))) }

    // The name that is told to be there is that of the number drawn. It is there, or where the disk tells
    // no names it failed, and what stands under it stays.
    ensures taken { IfTaken result (λ name. Drew deletes (N.drawn names.old) (N.drawn names.new) name) }
    ensures exists { IfTaken result (λ name. IfSome (D.files disk.old) (λ old. IsSome (old name))) }
    ensures exists_untold { IfTaken result (λ _.
        IfNone (D.files disk.old) (Rose (D.faults disk.old) (D.faults disk.new))) }
    ensures unchanged { IfTaken result (λ _. Changes Same (D.files disk.old) (D.files disk.new)) }
    ensures stays_in_images { IfTaken result (λ name.
        Touches StaysIfThere name (D.images disk.old) (D.images disk.new)) }

    ensures cause { IsErrOf result new_file_no.DiskFault → Rose (D.faults disk.old) (D.faults disk.new) }
    ensures later { D.faults disk.old ≤ D.faults disk.new }

    // On every answer.
    ensures wrote { Wrote deletes (N.drawn names.old) (N.drawn names.new) (D.files disk.old) (D.files disk.new)
        (D.images disk.old) (D.images disk.new) result }
    ensures stays { Changes Stays (D.files disk.old) (D.files disk.new) }
    ensures opens { D.opens disk.new ≡ D.opens disk.old }
    ensures part { D.part disk.new ≡ D.part disk.old }
{
    let number = names.next();
    let Ok(name) = file_name(alloc, number, deletes) else {
        return Err(NewFileNo::Memory);
    };
    match write_as(alloc, disk, &name, bytes) {
        Ok(file) => Ok(file),
        Err(why) => Err(refused(why, name)),
    }
}
