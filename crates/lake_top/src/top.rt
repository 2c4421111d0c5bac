ghost use Rattle.std.specs.Prelude.{◌≡◌, ◌≢◌, ◌≤◌, ◌<◌, ◌+◌, ◌-◌, ◌^◌, [], ℕ, min, None, Option, IfErr, IfOk, OnErr, OnOk, Err, length, replicate, true};
ghost use Rattle.lake_io.specs.Causes.{Rose};
ghost use Rattle.lake_io.specs.Told.{IsAtEnd};
ghost use Rattle.lake_types.specs.declared.limits.TheConstants.{MAX_SCRIPT_BYTES, MAX_SESSIONS};
ghost use Rattle.lake_model.specs.Core.{is_session};
ghost use Rattle.door.specs.Opened.{Opened};
ghost use Rattle.lake_top.specs.Run.{Answered, Halts, Outcome, UsageOutcome, exit_of, fresh_of, left_of, start_of};
ghost use Rattle.lake_top.specs.Script.{no_counts, script_lines};
ghost use Rattle.lake_top.specs.Sixteen.{AreReady, owns_of};

use crate::desk::Desk;
use crate::ending::{refused, told};
use crate::halt::Halt;
use crate::opening::open_lake;
use crate::script::answer_all;
use crate::status::Status;
use door::Door;
use file_disk::{FileDisk, Held};
use keeper::Keeper;
use lake_io::{Clock, Names, Sink, Source};
use std::alloc::{AllocError, Global};

/// How many bytes are read at once.
const PIECE_BYTES: usize = 65_536;

/// The last line of a run with other words.
const USAGE: &[u8] =
    b"! usage: lake [--inline 0..1000] [--target 1..1000000] [--gen SEED] [--count 0..20000]\n";

/// A new desk, and the room for a piece of the input.
fn begun<F: Held>(alloc: Global) -> Result<(Desk<F>, Vec<u8>), AllocError>
    ensures sixteen { IfOk result (λ begun. length begun.0.sessions.items ≡ MAX_SESSIONS) }
    ensures ready { IfOk result (λ begun. (opened : ℕ → Option Opened) →
        ((s : ℕ) → is_session s ≡ true → opened s ≡ None) →
        AreReady F.name F.size F.bytes opened begun.0.sessions.items) }
    ensures owns { IfOk result (λ begun. owns_of begun.0.sessions.items ≡ replicate MAX_SESSIONS []) }
    ensures counts { IfOk result (λ begun. begun.0.counts.items ≡ no_counts) }
    ensures pending { IfOk result (λ begun. begun.0.pending.items ≡ []) }
    ensures room { IfOk result (λ begun. 0 < length begun.1.items) }
    ensures small { IfOk result (λ begun. length begun.1.items ≤ 65536) }
{
    let piece = vec![in alloc; 0; PIECE_BYTES]?;
    match Desk::new(alloc) {
        Ok(desk) => Ok((desk, piece)),
        Err(error) => Err(error),
    }
}

/// Answers the whole input of a run, over a door with nothing open.
fn answered<R: Door<F>, F: Held, D: FileDisk<File = F>, N: Names, C: Clock, S: Source, O: Sink>(
    alloc: Global,
    door: &mut R,
    disk: &mut D,
    names: &mut N,
    clock: &mut C,
    input: &mut S,
    output: &mut O,
) -> Result<(), Halt>
    requires all { (s : ℕ) → is_session s ≡ true → R.serves door.old s ≡ true }
    requires in_order { R.in_order door.old }
    requires closed { (s : ℕ) → is_session s ≡ true → R.opened door.old s ≡ None }
    ensures in_order { R.in_order door.new }
    ensures ok { OnOk result (Answered
        (fresh_of (R.stands door.old) (D.files disk.old) (R.keeper_faults door.old) (D.faults disk.old))
        (left_of (R.stands door.new) (D.files disk.new) (R.keeper_faults door.new) (D.faults disk.new))
        (S.left input.old) (S.left input.new) (O.taken output.old) (O.taken output.new) script_lines []) }
    ensures end { OnOk result (IsAtEnd (S.left input.new)) }
    ensures halt { IfErr result (λ halt. Halts halt
        (fresh_of (R.stands door.old) (D.files disk.old) (R.keeper_faults door.old) (D.faults disk.old))
        (left_of (R.stands door.new) (D.files disk.new) (R.keeper_faults door.new) (D.faults disk.new))
        (S.left input.old) (S.left input.new) (O.taken output.old) (O.taken output.new)) }
    ensures part { D.part disk.new ≡ D.part disk.old }
    ensures short { OnOk result (S.given input.new ≤ S.given input.old + MAX_SCRIPT_BYTES) }
    ensures most { S.given input.new ≤ S.given input.old + MAX_SCRIPT_BYTES + 1 }
    ensures read { result ≡ Err Halt.Read → Rose (S.faults input.old) (S.faults input.new) }
    ensures write { result ≡ Err Halt.Write → Rose (O.faults output.old) (O.faults output.new) }
    ensures long { result ≡ Err Halt.TooLong →
        min (S.given input.old + MAX_SCRIPT_BYTES + 1) (2 ^ 64 - 1) ≤ S.given input.new }
    ensures later { O.faults output.old ≤ O.faults output.new }
{
    match begun(alloc) {
        Ok((mut desk, mut piece)) => {
            let piece = piece.as_mut_slice();
            match answer_all(
                alloc, door, disk, names, clock, input, output, &mut desk, piece,
            ) {
                Ok(()) => Ok(()),
                Err(halt) => Err(halt),
            }
        }
        Err(_) => Err(Halt::Memory),
    }
}

/// Opens the lake of a keeper and a disk, and answers a script: reads the lines of the input, and writes the reply
/// to each counted line before it answers the next. What is open at the end is rolled back without a reply. The
/// keeper is handed back.
///
/// The words are those of the command line, the program's name first; there are no options yet.
pub fn run<S: Source, O: Sink, K: Keeper, D: FileDisk, N: Names, C: Clock>(
    alloc: Global,
    words: &[String],
    input: &mut S,
    output: &mut O,
    keeper: K,
    disk: &mut D,
    names: &mut N,
    clock: &mut C,
) -> (Status, K)
    // What is read and written, and the lake at exit, by the status.
    ensures output { length words.now ≡ 1 → Outcome result.0 (K.content keeper)
        (start_of (K.content keeper) (D.files disk.old) (K.faults keeper) (D.faults disk.old))
        (exit_of (K.content result.1) (D.files disk.new) (K.faults result.1) (D.faults disk.new))
        (S.left input.old) (S.left input.new) (O.taken output.old) (O.taken output.new) }

    // Other words are answered by the usage line, and nothing is read or changed.
    ensures usage { length words.now ≢ 1 → UsageOutcome result.0 (O.taken output.old) (O.taken output.new) }
    ensures unread { length words.now ≢ 1 → input.new ≡ input.old }
    ensures untouched { length words.now ≢ 1 → (result.1 ≡ keeper) × (disk.new ≡ disk.old) }

    // No more is read than shows that a script is too long.
    ensures most { S.given input.new ≤ S.given input.old + MAX_SCRIPT_BYTES + 1 }

    // The causes of the statuses.
    ensures short { result.0 ≡ Status.Good → S.given input.new ≤ S.given input.old + MAX_SCRIPT_BYTES }
    ensures read { result.0 ≡ Status.ReadFault → Rose (S.faults input.old) (S.faults input.new) }
    ensures write { result.0 ≡ Status.WriteFault → Rose (O.faults output.old) (O.faults output.new) }
    ensures long { result.0 ≡ Status.TooLong →
        min (S.given input.old + MAX_SCRIPT_BYTES + 1) (2 ^ 64 - 1) ≤ S.given input.new }
    ensures keeper { result.0 ≡ Status.KeeperFault → Rose (K.faults keeper) (K.faults result.1) }
    ensures disk { result.0 ≡ Status.DiskFault → Rose (D.faults disk.old) (D.faults disk.new) }
    ensures part { D.part disk.new ≡ D.part disk.old }
{
    if words.len() != 1 {
        return (told(output, USAGE, Status::Usage), keeper);
    }
    match open_lake(alloc, keeper, disk, clock) {
        Ok(mut core) => {
            let status = match answered(alloc, &mut core, disk, names, clock, input, output) {
                Ok(()) => Status::Good,
                Err(halt) => told(output, halt.last_line(), halt.status()),
            };
            (status, core.into_keeper())
        }
        Err((why, keeper)) => (refused(alloc, output, &why), keeper),
    }
}
