ghost use Rattle.std.specs.Prelude.{◌≡◌, ◌≤◌, [], ℕ, None, IfErr, IfOk, replicate};
ghost use Rattle.lake_types.specs.declared.limits.TheConstants.{MAX_SESSIONS};
ghost use Rattle.lake_model.specs.Replay.{Lake};
ghost use Rattle.file_disk.specs.Folder.{Changes, Same};
ghost use Rattle.row_files.specs.Folders.{files_of};
ghost use Rattle.cat_core.specs.Shown.{InOrder, opened_in, shown};
ghost use Rattle.cat_core.specs.Stands.{Stands};
ghost use Rattle.lake_top.specs.Opening.{IsLakeOf, WhyNotOpen};
ghost use Rattle.lake_top.specs.Sixteen.{StandsFor};

use cat_core::CatCore;
use file_disk::FileDisk;
use keeper::Keeper;
use lake_io::Clock;
use recover::{OpenNo, hold_files, open_rows};
use std::alloc::Global;

/// Opens a lake: what failed before can't come back, an empty content gets snapshot 0, the rows that the keeper
/// keeps break no rule, and each file that they name is there with the size that its row says. No file is read. A
/// refusal hands the keeper back, and keeper and disk stand for the lake that they stood for.
pub fn open_lake<K: Keeper, D: FileDisk, C: Clock>(
    alloc: Global,
    mut keeper: K,
    disk: &mut D,
    clock: &mut C,
) -> Result<CatCore<K, D::File>, (OpenNo, K)>
    ensures in_order { IfOk result (λ core.
        InOrder (K.content core.keeper) (shown D.File.name D.File.size D.File.bytes core)) }
    ensures closed { IfOk result (λ core. (session : ℕ) →
        opened_in (shown D.File.name D.File.size D.File.bytes core).opens session ≡ None) }
    ensures stands { IfOk result (λ core. Changes (λ folder folder'. (lake : Lake) →
        IsLakeOf (K.content keeper) folder lake →
        StandsFor (Stands (shown D.File.name D.File.size D.File.bytes core) (files_of folder'))
        (replicate MAX_SESSIONS []) lake)
        (D.files disk.old) (D.files disk.new)) }
    ensures later { IfOk result (λ core. K.faults keeper ≤ K.faults core.keeper) }

    ensures refused { IfErr result (λ why. WhyNotOpen (K.faults keeper) (K.faults why.1)
        (D.faults disk.old) (D.faults disk.new) (K.content keeper) (D.files disk.old) why.0) }
    ensures kept { IfErr result (λ why. Changes (λ folder folder'. (lake : Lake) →
        IsLakeOf (K.content keeper) folder lake → IsLakeOf (K.content why.1) folder' lake)
        (D.files disk.old) (D.files disk.new)) }
    ensures back { IfErr result (λ why. K.faults keeper ≤ K.faults why.1) }

    ensures disk_later { D.faults disk.old ≤ D.faults disk.new }
    ensures files { Changes Same (D.files disk.old) (D.files disk.new) }
    ensures opens { D.opens disk.new ≡ D.opens disk.old }
    ensures part { D.part disk.new ≡ D.part disk.old }
{
    let time = clock.now();
    let rows = match open_rows(alloc, &mut keeper, time) {
        Ok(rows) => rows,
        Err(why) => return Err((why, keeper)),
    };
    let held = match hold_files(alloc, disk, &rows) {
        Ok(held) => held,
        Err(why) => return Err((why, keeper)),
    };
    match CatCore::new(alloc, keeper, rows, held) {
        Ok(core) => Ok(core),
        Err((_, keeper)) => Err((OpenNo::Memory, keeper)),
    }
}
