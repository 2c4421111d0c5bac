ghost use Rattle.std.specs.Prelude.{◌≡◌, ◌≤◌, ◌<◌, ◌+◌, ◌-◌, ◌^◌, ◌∷◌, [], min, IfErr, IfOk, OnErr, OnOk, Err, Ok, true, false, length};
ghost use Rattle.lake_io.specs.Causes.{Rose};
ghost use Rattle.lake_io.specs.Told.{Gives, IsAtEnd};
ghost use Rattle.lake_types.specs.declared.limits.TheConstants.{MAX_SCRIPT_BYTES};
ghost use Rattle.lake_model.specs.Replay.{NoFeed};
ghost use Rattle.lake_top.specs.Desks.{Answers, AreSet, moment};
ghost use Rattle.lake_top.specs.Reading.{FinishHalts, GivesMore, Moves, TurnHalts};
ghost use Rattle.lake_top.specs.Run.{Answered, Halts};
ghost use Rattle.lake_top.specs.Script.{no_counts, script_lines};

use crate::desk::{Desk, Stop};
use crate::halt::Halt;
use door::Door;
use file_disk::{FileDisk, Held};
use lake_io::{Clock, Names, Sink, Source};
use lake_types::limits::MAX_SCRIPT_BYTES;
use std::alloc::Global;

/// Reads a piece, answers the lines that end in it, and gives its length.
fn turn<R: Door<F>, F: Held, D: FileDisk<File = F>, N: Names, C: Clock, S: Source, O: Sink>(
    alloc: Global,
    door: &mut R,
    disk: &mut D,
    names: &mut N,
    clock: &mut C,
    input: &mut S,
    output: &mut O,
    desk: &mut Desk<F>,
    piece: &mut [u8],
) -> Result<usize, Halt>
    requires room { 0 < length piece.old }
    requires small { length piece.old ≤ 65536 }
    requires set { AreSet F.name F.size F.bytes (R.in_order door.old) (R.serves door.old)
        (R.opened door.old) desk.old.sessions.items }
    requires counted { length desk.old.counts.items ≡ 17 }
    requires begun { NoFeed desk.old.pending.items }
    ensures set { AreSet F.name F.size F.bytes (R.in_order door.new) (R.serves door.new)
        (R.opened door.new) desk.new.sessions.items }
    ensures counted { length desk.new.counts.items ≡ 17 }
    ensures begun { NoFeed desk.new.pending.items }
    ensures ok { IfOk result (λ n. Moves desk.old desk.new
        (moment (R.stands door.old) desk.old.sessions.items (D.files disk.old)
        (R.keeper_faults door.old) (D.faults disk.old))
        (moment (R.stands door.new) desk.new.sessions.items (D.files disk.new)
        (R.keeper_faults door.new) (D.faults disk.new)) n
        (S.left input.old) (S.left input.new) (O.taken output.old) (O.taken output.new)) }
    ensures end { IfOk result (λ n. n ≡ 0 → IsAtEnd (S.left input.new)) }
    ensures within { IfOk result (λ n. n ≤ length piece.old) }
    ensures given { IfOk result (λ n. S.given input.new ≡ min (S.given input.old + n) (2 ^ 64 - 1)) }
    ensures most { S.given input.new ≤ S.given input.old + length piece.old }
    ensures halt { IfErr result (λ halt. TurnHalts halt desk.old
        (moment (R.stands door.old) desk.old.sessions.items (D.files disk.old)
        (R.keeper_faults door.old) (D.faults disk.old))
        (moment (R.stands door.new) desk.new.sessions.items (D.files disk.new)
        (R.keeper_faults door.new) (D.faults disk.new))
        (S.left input.old) (S.left input.new) (O.taken output.old) (O.taken output.new)) }
    ensures part { D.part disk.new ≡ D.part disk.old }
    ensures read_later { S.faults input.old ≤ S.faults input.new }
    ensures written_later { O.faults output.old ≤ O.faults output.new }
    ensures read { result ≡ Err Halt.Read → Rose (S.faults input.old) (S.faults input.new) }
    ensures write { result ≡ Err Halt.Write → Rose (O.faults output.old) (O.faults output.new) }
{
    match input.read(piece) {
        Ok(count) => match desk.take(alloc, door, disk, names, clock, output, &piece[..count]) {
            Ok(()) => Ok(count),
            Err(Stop::Memory) => Err(Halt::Memory),
            Err(Stop::Write) => Err(Halt::Write),
        },
        Err(_) => Err(Halt::Read),
    }
}

/// Ends the last line at the end of the input.
fn finish<R: Door<F>, F: Held, D: FileDisk<File = F>, N: Names, C: Clock, O: Sink>(
    alloc: Global,
    door: &mut R,
    disk: &mut D,
    names: &mut N,
    clock: &mut C,
    output: &mut O,
    desk: &mut Desk<F>,
) -> Result<(), Halt>
    requires set { AreSet F.name F.size F.bytes (R.in_order door.old) (R.serves door.old)
        (R.opened door.old) desk.old.sessions.items }
    requires counted { length desk.old.counts.items ≡ 17 }
    requires begun { NoFeed desk.old.pending.items }
    ensures set { AreSet F.name F.size F.bytes (R.in_order door.new) (R.serves door.new)
        (R.opened door.new) desk.new.sessions.items }
    ensures ok { OnOk result (Answers desk.old desk.new
        (moment (R.stands door.old) desk.old.sessions.items (D.files disk.old)
        (R.keeper_faults door.old) (D.faults disk.old))
        (moment (R.stands door.new) desk.new.sessions.items (D.files disk.new)
        (R.keeper_faults door.new) (D.faults disk.new)) (10 ∷ [])
        (O.taken output.old) (O.taken output.new)) }
    ensures halt { IfErr result (λ halt. FinishHalts halt desk.old
        (moment (R.stands door.old) desk.old.sessions.items (D.files disk.old)
        (R.keeper_faults door.old) (D.faults disk.old))
        (moment (R.stands door.new) desk.new.sessions.items (D.files disk.new)
        (R.keeper_faults door.new) (D.faults disk.new))
        (O.taken output.old) (O.taken output.new)) }
    ensures part { D.part disk.new ≡ D.part disk.old }
    ensures later { O.faults output.old ≤ O.faults output.new }
    ensures write { result ≡ Err Halt.Write → Rose (O.faults output.old) (O.faults output.new) }
{
    match desk.end_line(alloc, door, disk, names, clock, output) {
        Ok(()) => Ok(()),
        Err(Stop::Memory) => Err(Halt::Memory),
        Err(Stop::Write) => Err(Halt::Write),
    }
}

/// Whether the input has a byte past the most of a script, which it then takes.
fn goes_past<S: Source>(input: &mut S) -> Result<bool, Halt>
    ensures more { IfOk result (λ more. GivesMore more (S.left input.old) (S.left input.new)) }
    ensures none { result ≡ Ok false → S.given input.new ≤ S.given input.old }
    ensures given { result ≡ Ok true → min (S.given input.old + 1) (2 ^ 64 - 1) ≤ S.given input.new }
    ensures most { S.given input.new ≤ S.given input.old + 1 }
    ensures fault { OnErr result (Gives (S.left input.old) (S.left input.new) []) }
    ensures later { S.faults input.old ≤ S.faults input.new }
    ensures read { OnErr result (Rose (S.faults input.old) (S.faults input.new)) }
    ensures only { IfErr result (λ halt. halt ≡ Halt.Read) }
{
    let mut one = [0u8; 1];
    match input.read(&mut one) {
        Ok(count) => Ok(count > 0),
        Err(_) => Err(Halt::Read),
    }
}

/// Answers the whole input of a run at a new desk.
pub fn answer_all<
    R: Door<F>,
    F: Held,
    D: FileDisk<File = F>,
    N: Names,
    C: Clock,
    S: Source,
    O: Sink,
>(
    alloc: Global,
    door: &mut R,
    disk: &mut D,
    names: &mut N,
    clock: &mut C,
    input: &mut S,
    output: &mut O,
    desk: &mut Desk<F>,
    piece: &mut [u8],
) -> Result<(), Halt>
    requires room { 0 < length piece.old }
    requires small { length piece.old ≤ 65536 }
    requires set { AreSet F.name F.size F.bytes (R.in_order door.old) (R.serves door.old)
        (R.opened door.old) desk.old.sessions.items }
    requires zero { desk.old.counts.items ≡ no_counts }
    requires empty { desk.old.pending.items ≡ [] }
    ensures set { AreSet F.name F.size F.bytes (R.in_order door.new) (R.serves door.new)
        (R.opened door.new) desk.new.sessions.items }
    ensures ok { OnOk result (Answered
        (moment (R.stands door.old) desk.old.sessions.items (D.files disk.old)
        (R.keeper_faults door.old) (D.faults disk.old))
        (moment (R.stands door.new) desk.new.sessions.items (D.files disk.new)
        (R.keeper_faults door.new) (D.faults disk.new))
        (S.left input.old) (S.left input.new) (O.taken output.old) (O.taken output.new) script_lines []) }
    ensures end { OnOk result (IsAtEnd (S.left input.new)) }
    ensures halt { IfErr result (λ halt. Halts halt
        (moment (R.stands door.old) desk.old.sessions.items (D.files disk.old)
        (R.keeper_faults door.old) (D.faults disk.old))
        (moment (R.stands door.new) desk.new.sessions.items (D.files disk.new)
        (R.keeper_faults door.new) (D.faults disk.new))
        (S.left input.old) (S.left input.new) (O.taken output.old) (O.taken output.new)) }
    ensures part { D.part disk.new ≡ D.part disk.old }
    ensures short { OnOk result (S.given input.new ≤ S.given input.old + MAX_SCRIPT_BYTES) }
    ensures most { S.given input.new ≤ S.given input.old + MAX_SCRIPT_BYTES + 1 }
    ensures read { result ≡ Err Halt.Read → Rose (S.faults input.old) (S.faults input.new) }
    ensures write { result ≡ Err Halt.Write → Rose (O.faults output.old) (O.faults output.new) }
    ensures long { result ≡ Err Halt.TooLong →
        min (S.given input.old + MAX_SCRIPT_BYTES + 1) (2 ^ 64 - 1) ≤ S.given input.new }
    ensures later { O.faults output.old ≤ O.faults output.new }
{
    let mut total = 0u64;
    while total < MAX_SCRIPT_BYTES {
        let room = piece.len().min((MAX_SCRIPT_BYTES - total) as usize);
        let count = match turn(
            alloc,
            door,
            disk,
            names,
            clock,
            input,
            output,
            desk,
            &mut piece[..room],
        ) {
            Ok(count) => count,
            Err(halt) => return Err(halt),
        };
        if count == 0 {
            return match finish(alloc, door, disk, names, clock, output, desk) {
                Ok(()) => Ok(()),
                Err(halt) => Err(halt),
            };
        }
        total += count as u64;
    }
    match goes_past(input) {
        Ok(true) => Err(Halt::TooLong),
        Ok(false) => match finish(alloc, door, disk, names, clock, output, desk) {
            Ok(()) => Ok(()),
            Err(halt) => Err(halt),
        },
        Err(halt) => Err(halt),
    }
}
