ghost use Rattle.std.specs.Prelude.{◌≡◌, ◌≢◌, ◌≤◌, [], ℕ, List, IfErr, IfNone, IfOk, IfSome, OnErr, IsErrOf};
ghost use Rattle.lake_io.specs.Causes.{Rose};
ghost use Rattle.file_disk.specs.Folder.{Changes};
ghost use Rattle.row_files.specs.Folders.{files_of};
ghost use Rattle.row_files.specs.Stages.{EndsAtTaken, IfTakenName, Stays};
ghost use Rattle.row_files.specs.declared.fault.StageNo.TheVariants.{Damaged, DiskFault};
ghost use Rattle.txn_buf.specs.Keeping.{txn_of};
ghost use Rattle.session.specs.Held.{IsGood};
ghost use Rattle.session.specs.Staging.{MayCommit};
ghost use Rattle.session.specs.Turns.{stage_answer};

use cat_view::Staged;
use file_disk::FileDisk;
use lake_io::Names;
use lake_model::Answer;
use row_files::{StageNo, stage};
use std::alloc::Global;
use txn_buf::TxnBuf;

/// The answer that a refusal of staging is.
pub fn stage_refusal(why: StageNo) -> Answer
    ensures { result ≡ stage_answer why }
{
    match why {
        StageNo::DiskFault => Answer::Disk,
        StageNo::Taken { name } => Answer::NameTaken { name },
        StageNo::Damaged { name } => Answer::Damaged { name },
        StageNo::Memory => Answer::Memory,
    }
}

/// What a transaction hands to its commit: its rows, written as synced files. Without changes nothing is written.
pub fn staged_for<D: FileDisk, N: Names>(
    alloc: Global,
    disk: &mut D,
    names: &mut N,
    buf: &TxnBuf<D::File>,
) -> Result<Staged<D::File>, StageNo>
    requires good { IsGood D.File.name buf.now }
    ensures staged { IfOk result (λ staged. IfSome (D.files disk.new) (λ folder.
        MayCommit D.File.name D.File.size D.File.bytes (files_of folder) buf.now staged)) }
    ensures some { OnErr result ((txn_of buf.now).own ≢ []) }
    ensures stays { Changes Stays (D.files disk.old) (D.files disk.new) }
    ensures whole { IfErr result (λ why. (name : List ℕ) → why ≢ Damaged name) }
    ensures taken { IfTakenName result (EndsAtTaken (N.drawn names.old) (N.drawn names.new)
        (D.files disk.old) (D.files disk.new)) }
    ensures taken_untold { IfTakenName result (λ _.
        IfNone (D.files disk.old) (Rose (D.faults disk.old) (D.faults disk.new))) }
    ensures cause { IsErrOf result DiskFault → Rose (D.faults disk.old) (D.faults disk.new) }
    ensures later { D.faults disk.old ≤ D.faults disk.new }
    ensures opens { D.opens disk.new ≡ D.opens disk.old }
    ensures part { D.part disk.new ≡ D.part disk.old }
{
    let txn = buf.txn();
    if txn.own.is_empty() {
        return Ok(Staged {
            tables: Vec::new(alloc),
        });
    }
    let view = buf.view();
    match stage(alloc, disk, names, view, txn) {
        Ok(staged) => Ok(staged),
        Err(why) => Err(why),
    }
}
