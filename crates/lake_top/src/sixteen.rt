ghost use Rattle.std.specs.Prelude.{◌≡◌, ◌≤◌, ℕ, List, IfNone, length, true};
ghost use Rattle.lake_io.specs.Causes.{Rose};
ghost use Rattle.lake_types.specs.declared.limits.TheConstants.{MAX_SESSIONS};
ghost use Rattle.file_disk.specs.Folder.{Changes};
ghost use Rattle.lake_model.specs.Core.{is_session};
ghost use Rattle.lake_model.specs.Replay.{Lake};
ghost use Rattle.lake_model.specs.declared.answer.Answer.TheVariants as answer;
ghost use Rattle.row_files.specs.Folders.{files_of};
ghost use Rattle.row_files.specs.Stages.{EndsAtTaken};
ghost use Rattle.txn_buf.specs.Sizes.{IsSizedStmt};
ghost use Rattle.lake_top.specs.Sixteen.{AreReady, IsSaid, StandsFor, line_of, owns_of};

use door::Door;
use file_disk::{FileDisk, Held};
use lake_io::{Clock, Names};
use lake_model::Reply;
use lake_types::Stmt;
use session::Session;
use std::alloc::Global;

/// Answers a statement of one of sixteen sessions. Whatever its number in the script, it is a line of the replay.
pub fn answer_line<R: Door<F>, F: Held, D: FileDisk<File = F>, N: Names, C: Clock>(
    alloc: Global,
    door: &mut R,
    sessions: &mut [Session<F>],
    disk: &mut D,
    names: &mut N,
    clock: &mut C,
    session: u8,
    stmt: &Stmt,
) -> Reply
    requires all { (s : ℕ) → is_session s ≡ true → R.serves door.old s ≡ true }
    requires in_order { R.in_order door.old }
    requires ready { AreReady F.name F.size F.bytes (R.opened door.old) sessions.old }
    requires sixteen { length sessions.old ≡ MAX_SESSIONS }
    requires session { is_session session ≡ true }
    requires sized { IsSizedStmt stmt.now }
    ensures sixteen { length sessions.new ≡ MAX_SESSIONS }
    ensures serves { R.serves door.new ≡ R.serves door.old }
    ensures in_order { R.in_order door.new }
    ensures ready { AreReady F.name F.size F.bytes (R.opened door.new) sessions.new }
    ensures later { R.keeper_faults door.old ≤ R.keeper_faults door.new }
    ensures keeper { result.last ≡ answer.Keeper → Rose (R.keeper_faults door.old) (R.keeper_faults door.new) }
    ensures disk_later { D.faults disk.old ≤ D.faults disk.new }
    ensures disk { result.last ≡ answer.Disk → Rose (D.faults disk.old) (D.faults disk.new) }
    ensures part { D.part disk.new ≡ D.part disk.old }
    ensures said { (number : ℕ) → Changes (λ folder folder'. (lake : Lake) →
        StandsFor (R.stands door.old (files_of folder)) (owns_of sessions.old) lake →
        IsSaid (line_of session number stmt.now) result
        (StandsFor (R.stands door.new (files_of folder')) (owns_of sessions.new)) lake)
        (D.files disk.old) (D.files disk.new) }
{
    let place = session as usize - 1;
    sessions[place].answer(alloc, door, disk, names, clock, stmt)
}
