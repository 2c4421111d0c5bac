ghost use Rattle.std.specs.Prelude.{◌≡◌, ◌≤◌, ◌∷◌, [], ℕ, IfErr, IfOk, IfSome, OnErr, OnOk, length, slice_index, true};
ghost use Rattle.lake_types.specs.declared.limits.TheConstants.{MAX_SESSIONS};
ghost use Rattle.lake_model.specs.Core.{is_session};
ghost use Rattle.lake_model.specs.Step as step;
ghost use Rattle.lake_top.specs.Desks.{AreSet, Goes, moment};
ghost use Rattle.lake_top.specs.Script.{numbered};
ghost use Rattle.lake_top.specs.Sixteen.{line_of};

use crate::sixteen::answer_line;
use door::Door;
use file_disk::{FileDisk, Held};
use lake_io::{Clock, Names};
use lake_model::{Answer, Reply};
use lake_types::{Listed, Stmt};
use session::Session;
use std::alloc::Global;
use stmt_text::{LineNo, read_line};
use txn_buf::is_sized;

/// A reply of an answer alone.
fn only(alloc: Global, last: Answer) -> Reply
    ensures { result ≡ step.only last }
{
    Reply {
        rows: Listed::new(alloc),
        last,
    }
}

/// Answers a statement of one of sixteen sessions.
#[tactic(auto, using(crate::proofs::LineLemmas::goes_memory))]
fn answer_stmt<R: Door<F>, F: Held, D: FileDisk<File = F>, N: Names, C: Clock>(
    alloc: Global,
    door: &mut R,
    sessions: &mut [Session<F>],
    disk: &mut D,
    names: &mut N,
    clock: &mut C,
    session: u8,
    stmt: &Stmt,
) -> Reply
    requires set { AreSet F.name F.size F.bytes (R.in_order door.old) (R.serves door.old)
        (R.opened door.old) sessions.old }
    requires session { is_session session ≡ true }
    ensures set { AreSet F.name F.size F.bytes (R.in_order door.new) (R.serves door.new)
        (R.opened door.new) sessions.new }
    ensures goes { (number : ℕ) → Goes
        (moment (R.stands door.old) sessions.old (D.files disk.old)
        (R.keeper_faults door.old) (D.faults disk.old))
        (moment (R.stands door.new) sessions.new (D.files disk.new)
        (R.keeper_faults door.new) (D.faults disk.new))
        (line_of session number stmt.now ∷ []) (result ∷ []) }
    ensures part { D.part disk.new ≡ D.part disk.old }
{
    if is_sized(stmt) {
        answer_line(alloc, door, sessions, disk, names, clock, session, stmt)
    } else {
        only(alloc, Answer::Memory)
    }
}

/// Answers a line that is counted.
#[tactic(auto, using(crate::proofs::LineLemmas::goes_memory, crate::proofs::LineLemmas::goes_long, crate::proofs::LineLemmas::goes_wrong))]
pub fn answer<R: Door<F>, F: Held, D: FileDisk<File = F>, N: Names, C: Clock>(
    alloc: Global,
    door: &mut R,
    sessions: &mut [Session<F>],
    disk: &mut D,
    names: &mut N,
    clock: &mut C,
    line: &[u8],
) -> Reply
    requires set { AreSet F.name F.size F.bytes (R.in_order door.old) (R.serves door.old)
        (R.opened door.old) sessions.old }
    ensures set { AreSet F.name F.size F.bytes (R.in_order door.new) (R.serves door.new)
        (R.opened door.new) sessions.new }
    ensures goes { (number : ℕ) → Goes
        (moment (R.stands door.old) sessions.old (D.files disk.old)
        (R.keeper_faults door.old) (D.faults disk.old))
        (moment (R.stands door.new) sessions.new (D.files disk.new)
        (R.keeper_faults door.new) (D.faults disk.new))
        (numbered number line.now ∷ []) (result ∷ []) }
    ensures part { D.part disk.new ≡ D.part disk.old }
{
    match read_line(alloc, line) {
        Ok((session, stmt)) => {
            answer_stmt(alloc, door, sessions, disk, names, clock, session, &stmt)
        }
        Err(LineNo::TooLong { .. }) => only(alloc, Answer::TooLong),
        Err(LineNo::Syntax { at, .. }) => only(alloc, Answer::Syntax { at }),
        Err(LineNo::Memory) => only(alloc, Answer::Memory),
    }
}
