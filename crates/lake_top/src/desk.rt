ghost use Rattle.std.specs.Prelude.{◌≡◌, ◌≢◌, ℕ, ◌≤◌, ◌<◌, ◌+◌, ◌++◌, ◌∷◌, [], Err, IfErr, IfOk, IfSome, None, OnOk, OnErr, Option, length, replicate, slice_index, take, true};
ghost use Rattle.lake_io.specs.Causes.{HasCause, Rose};
ghost use Rattle.lake_io.specs.Told.{Takes};
ghost use Rattle.lake_types.specs.declared.limits.TheConstants.{MAX_SESSIONS as SESSIONS};
ghost use Rattle.lake_model.specs.Core.{is_session};
ghost use Rattle.lake_model.specs.Replay.{NoFeed};
ghost use Rattle.door.specs.Opened.{Opened};
ghost use Rattle.lake_top.specs.Desks as spec;
ghost use Rattle.lake_top.specs.Desks.{AreSet, moment};
ghost use Rattle.lake_top.specs.Script.{counts_after, line_at, no_counts, numbered};
ghost use Rattle.lake_top.specs.Sixteen.{AreReady, owns_of};

use crate::lines::answer;
use crate::sessions::new_sessions;
use crate::skipped::{is_skipped, shorn};
use door::Door;
use file_disk::{FileDisk, Held};
use lake_io::{Clock, Names, Sink, write_all};
use lake_model::Reply;
use replies::push_reply;
use session::Session;
use std::alloc::{AllocError, Global};
use std::mem;
use stmt_text::session_of_line;

/// Why no more lines are answered.
#[derive(Clone, Copy, Debug, PartialEq, Eq)]
pub enum Stop {
    Memory,
    Write,
}

/// Sixteen sessions that answer a script as its bytes come in.
#[derive(Drop)]
pub struct Desk<F> {
    /// Those of the numbers 1 to 16.
    pub sessions: Vec<Session<F>>,
    /// How many lines each session has had, and before them those of no session.
    pub counts: Vec<u64>,
    /// The bytes of the line that has begun.
    pub pending: Vec<u8>,
}

/// How many bytes at the front stand before a line feed.
fn line_len(bytes: &[u8]) -> usize
    ensures value { result ≡ spec.line_len bytes.now }
    ensures within { result ≤ length bytes.now }
{
    let mut len = 0;
    for b in bytes {
        if *b == b'\n' {
            return len;
        }
        len += 1;
    }
    len
}

/// The number of a session's next line, and none past the last number.
fn next_number(counts: &[u64], session: u8) -> Option<u64>
    requires counted { length counts.now ≡ 17 }
    requires small { session ≤ 16 }
    ensures { IfSome result (λ number. number ≡ slice_index counts.now session + 1) }
{
    counts[session as usize].checked_add(1)
}

/// Writes a text, and tells what the sink has taken of it at a fault.
fn send<O: Sink>(sink: &mut O, text: &[u8]) -> Result<(), Stop>
    ensures ok { OnOk result (Takes (O.taken sink.old) (O.taken sink.new) text.now) }
    ensures part { OnErr result ((n : ℕ) × Takes (O.taken sink.old) (O.taken sink.new) (take n text.now)) }
    ensures write { result ≢ Err Stop.Memory }
    ensures cause { HasCause (O.faults sink.old) (O.faults sink.new) result }
{
    match write_all(sink, text) {
        Ok(()) => Ok(()),
        Err(_) => Err(Stop::Write),
    }
}

impl<F: Held> Desk<F> {
    /// Sixteen sessions with nothing open, before the first line.
    pub fn new(alloc: Global) -> Result<Desk<F>, AllocError>
        ensures sixteen { IfOk result (λ desk. length desk.sessions.items ≡ SESSIONS) }
        ensures ready { IfOk result (λ desk. (opened : ℕ → Option Opened) →
            ((s : ℕ) → is_session s ≡ true → opened s ≡ None) →
            AreReady F.name F.size F.bytes opened desk.sessions.items) }
        ensures owns { IfOk result (λ desk. owns_of desk.sessions.items ≡ replicate SESSIONS []) }
        ensures counts { IfOk result (λ desk. desk.counts.items ≡ no_counts) }
        ensures pending { IfOk result (λ desk. desk.pending.items ≡ []) }
    {
        Ok(Desk {
            sessions: new_sessions(alloc)?,
            counts: vec![in alloc; 0; 17]?,
            pending: Vec::new(alloc),
        })
    }

    /// Answers a counted line.
    fn answer<R: Door<F>, D: FileDisk<File = F>, N: Names, C: Clock>(
        &mut self,
        alloc: Global,
        door: &mut R,
        disk: &mut D,
        names: &mut N,
        clock: &mut C,
        line: &[u8],
    ) -> Reply
        requires set { AreSet F.name F.size F.bytes (R.in_order door.old) (R.serves door.old)
            (R.opened door.old) self.old.sessions.items }
        ensures set { AreSet F.name F.size F.bytes (R.in_order door.new) (R.serves door.new)
            (R.opened door.new) self.new.sessions.items }
        ensures counts { self.new.counts ≡ self.old.counts }
        ensures pending { self.new.pending ≡ self.old.pending }
        ensures goes { (number : ℕ) → spec.Goes
            (moment (R.stands door.old) self.old.sessions.items (D.files disk.old)
            (R.keeper_faults door.old) (D.faults disk.old))
            (moment (R.stands door.new) self.new.sessions.items (D.files disk.new)
            (R.keeper_faults door.new) (D.faults disk.new))
            (numbered number line.now ∷ []) (result ∷ []) }
        ensures part { D.part disk.new ≡ D.part disk.old }
    {
        answer(
            alloc,
            door,
            self.sessions.as_mut_slice(),
            disk,
            names,
            clock,
            line,
        )
    }

    /// The text that answers a counted line under this number.
    fn answer_text<R: Door<F>, D: FileDisk<File = F>, N: Names, C: Clock>(
        &mut self,
        alloc: Global,
        door: &mut R,
        disk: &mut D,
        names: &mut N,
        clock: &mut C,
        number: u64,
        line: &[u8],
    ) -> Result<Vec<u8>, AllocError>
        requires set { AreSet F.name F.size F.bytes (R.in_order door.old) (R.serves door.old)
            (R.opened door.old) self.old.sessions.items }
        ensures set { AreSet F.name F.size F.bytes (R.in_order door.new) (R.serves door.new)
            (R.opened door.new) self.new.sessions.items }
        ensures counts { self.new.counts ≡ self.old.counts }
        ensures pending { self.new.pending ≡ self.old.pending }
        ensures text { IfOk result (λ text. spec.TellsOne (numbered number line.now) text.items
            (moment (R.stands door.old) self.old.sessions.items (D.files disk.old)
            (R.keeper_faults door.old) (D.faults disk.old))
            (moment (R.stands door.new) self.new.sessions.items (D.files disk.new)
            (R.keeper_faults door.new) (D.faults disk.new))) }
        ensures left { OnErr result (spec.LeavesOne (numbered number line.now)
            (moment (R.stands door.old) self.old.sessions.items (D.files disk.old)
            (R.keeper_faults door.old) (D.faults disk.old))
            (moment (R.stands door.new) self.new.sessions.items (D.files disk.new)
            (R.keeper_faults door.new) (D.faults disk.new))) }
        ensures part { D.part disk.new ≡ D.part disk.old }
    {
        let session = session_of_line(line);
        let reply = self.answer(alloc, door, disk, names, clock, line);
        let mut text = Vec::new(alloc);
        match push_reply(alloc, &mut text, session, number, &reply) {
            Ok(()) => Ok(text),
            Err(error) => Err(error),
        }
    }

    /// The text that answers a counted line.
    fn counted_text<R: Door<F>, D: FileDisk<File = F>, N: Names, C: Clock>(
        &mut self,
        alloc: Global,
        door: &mut R,
        disk: &mut D,
        names: &mut N,
        clock: &mut C,
        line: &[u8],
    ) -> Result<Vec<u8>, AllocError>
        requires set { AreSet F.name F.size F.bytes (R.in_order door.old) (R.serves door.old)
            (R.opened door.old) self.old.sessions.items }
        requires counted { length self.old.counts.items ≡ 17 }
        ensures set { AreSet F.name F.size F.bytes (R.in_order door.new) (R.serves door.new)
            (R.opened door.new) self.new.sessions.items }
        ensures counted { length self.new.counts.items ≡ 17 }
        ensures counts { OnOk result (self.new.counts.items ≡ counts_after self.old.counts.items line.now) }
        ensures pending { self.new.pending ≡ self.old.pending }
        ensures text { IfOk result (λ text. spec.TellsOne (line_at self.old.counts.items line.now) text.items
            (moment (R.stands door.old) self.old.sessions.items (D.files disk.old)
            (R.keeper_faults door.old) (D.faults disk.old))
            (moment (R.stands door.new) self.new.sessions.items (D.files disk.new)
            (R.keeper_faults door.new) (D.faults disk.new))) }
        ensures left { OnErr result (spec.LeavesOne (line_at self.old.counts.items line.now)
            (moment (R.stands door.old) self.old.sessions.items (D.files disk.old)
            (R.keeper_faults door.old) (D.faults disk.old))
            (moment (R.stands door.new) self.new.sessions.items (D.files disk.new)
            (R.keeper_faults door.new) (D.faults disk.new))) }
        ensures part { D.part disk.new ≡ D.part disk.old }
    {
        let session = session_of_line(line);
        let Some(number) = next_number(self.counts.as_slice(), session) else {
            return Err(AllocError);
        };
        match self.answer_text(alloc, door, disk, names, clock, number, line) {
            Ok(text) => {
                self.counts[session as usize] = number;
                Ok(text)
            }
            Err(error) => Err(error),
        }
    }

    /// The text that answers a line: nothing for a skipped one.
    fn line_text<R: Door<F>, D: FileDisk<File = F>, N: Names, C: Clock>(
        &mut self,
        alloc: Global,
        door: &mut R,
        disk: &mut D,
        names: &mut N,
        clock: &mut C,
        line: &[u8],
    ) -> Result<Vec<u8>, AllocError>
        requires set { AreSet F.name F.size F.bytes (R.in_order door.old) (R.serves door.old)
            (R.opened door.old) self.old.sessions.items }
        requires counted { length self.old.counts.items ≡ 17 }
        ensures set { AreSet F.name F.size F.bytes (R.in_order door.new) (R.serves door.new)
            (R.opened door.new) self.new.sessions.items }
        ensures counted { length self.new.counts.items ≡ 17 }
        ensures pending { self.new.pending ≡ self.old.pending }
        ensures text { IfOk result (λ text. spec.Tells self.old.counts.items line.now text.items self.new.counts.items
            (moment (R.stands door.old) self.old.sessions.items (D.files disk.old)
            (R.keeper_faults door.old) (D.faults disk.old))
            (moment (R.stands door.new) self.new.sessions.items (D.files disk.new)
            (R.keeper_faults door.new) (D.faults disk.new))) }
        ensures left { OnErr result (spec.Leaves self.old.counts.items line.now
            (moment (R.stands door.old) self.old.sessions.items (D.files disk.old)
            (R.keeper_faults door.old) (D.faults disk.old))
            (moment (R.stands door.new) self.new.sessions.items (D.files disk.new)
            (R.keeper_faults door.new) (D.faults disk.new))) }
        ensures part { D.part disk.new ≡ D.part disk.old }
    {
        let line = shorn(line);
        if is_skipped(line) {
            return Ok(Vec::new(alloc));
        }
        match self.counted_text(alloc, door, disk, names, clock, line) {
            Ok(text) => Ok(text),
            Err(error) => Err(error),
        }
    }
}

impl<F: Held> Desk<F> {
    /// Keeps bytes of the line that has begun.
    fn hold(&mut self, part: &[u8]) -> Result<(), AllocError>
        requires feed { NoFeed part.now }
        requires begun { NoFeed self.old.pending.items }
        ensures sessions { self.new.sessions ≡ self.old.sessions }
        ensures counts { self.new.counts ≡ self.old.counts }
        ensures pending { OnOk result (self.new.pending.items ≡ self.old.pending.items ++ part.now) }
        ensures begun { NoFeed self.new.pending.items }
    {
        match self.pending.extend_from_slice(part) {
            Ok(()) => Ok(()),
            Err(error) => Err(error),
        }
    }

    /// The text that answers the line that has begun, once it has ended.
    fn end_text<R: Door<F>, D: FileDisk<File = F>, N: Names, C: Clock>(
        &mut self,
        alloc: Global,
        door: &mut R,
        disk: &mut D,
        names: &mut N,
        clock: &mut C,
    ) -> Result<Vec<u8>, AllocError>
        requires set { AreSet F.name F.size F.bytes (R.in_order door.old) (R.serves door.old)
            (R.opened door.old) self.old.sessions.items }
        requires counted { length self.old.counts.items ≡ 17 }
        requires begun { NoFeed self.old.pending.items }
        ensures set { AreSet F.name F.size F.bytes (R.in_order door.new) (R.serves door.new)
            (R.opened door.new) self.new.sessions.items }
        ensures counted { length self.new.counts.items ≡ 17 }
        ensures begun { NoFeed self.new.pending.items }
        ensures text { IfOk result (λ text. spec.Tells self.old.counts.items self.old.pending.items text.items self.new.counts.items
            (moment (R.stands door.old) self.old.sessions.items (D.files disk.old)
            (R.keeper_faults door.old) (D.faults disk.old))
            (moment (R.stands door.new) self.new.sessions.items (D.files disk.new)
            (R.keeper_faults door.new) (D.faults disk.new))) }
        ensures empty { OnOk result (self.new.pending.items ≡ []) }
        ensures left { OnErr result (spec.Leaves self.old.counts.items self.old.pending.items
            (moment (R.stands door.old) self.old.sessions.items (D.files disk.old)
            (R.keeper_faults door.old) (D.faults disk.old))
            (moment (R.stands door.new) self.new.sessions.items (D.files disk.new)
            (R.keeper_faults door.new) (D.faults disk.new))) }
        ensures part { D.part disk.new ≡ D.part disk.old }
    {
        let mut line = mem::replace(&mut self.pending, Vec::new(alloc));
        match self.line_text(alloc, door, disk, names, clock, line.as_slice()) {
            Ok(text) => {
                line.clear();
                self.pending = line;
                Ok(text)
            }
            Err(error) => Err(error),
        }
    }

    /// Answers the line that has begun, once a line feed or the end of the script has ended it.
    pub fn end_line<R: Door<F>, D: FileDisk<File = F>, N: Names, C: Clock, O: Sink>(
        &mut self,
        alloc: Global,
        door: &mut R,
        disk: &mut D,
        names: &mut N,
        clock: &mut C,
        sink: &mut O,
    ) -> Result<(), Stop>
        requires set { AreSet F.name F.size F.bytes (R.in_order door.old) (R.serves door.old)
            (R.opened door.old) self.old.sessions.items }
        requires counted { length self.old.counts.items ≡ 17 }
        requires begun { NoFeed self.old.pending.items }
        ensures set { AreSet F.name F.size F.bytes (R.in_order door.new) (R.serves door.new)
            (R.opened door.new) self.new.sessions.items }
        ensures counted { length self.new.counts.items ≡ 17 }
        ensures begun { NoFeed self.new.pending.items }
        ensures ok { OnOk result (spec.Answers self.old self.new
            (moment (R.stands door.old) self.old.sessions.items (D.files disk.old)
            (R.keeper_faults door.old) (D.faults disk.old))
            (moment (R.stands door.new) self.new.sessions.items (D.files disk.new)
            (R.keeper_faults door.new) (D.faults disk.new))
            (10 ∷ []) (O.taken sink.old) (O.taken sink.new)) }
        ensures stop { IfErr result (λ stop. spec.Stops stop self.old
            (moment (R.stands door.old) self.old.sessions.items (D.files disk.old)
            (R.keeper_faults door.old) (D.faults disk.old))
            (moment (R.stands door.new) self.new.sessions.items (D.files disk.new)
            (R.keeper_faults door.new) (D.faults disk.new))
            (10 ∷ []) (O.taken sink.old) (O.taken sink.new)) }
        ensures part { D.part disk.new ≡ D.part disk.old }
        ensures later { O.faults sink.old ≤ O.faults sink.new }
        ensures cause { result ≡ Err Stop.Write → Rose (O.faults sink.old) (O.faults sink.new) }
    {
        match self.end_text(alloc, door, disk, names, clock) {
            Ok(text) => match send(sink, text.as_slice()) {
                Ok(()) => Ok(()),
                Err(stop) => Err(stop),
            },
            Err(_) => Err(Stop::Memory),
        }
    }

    /// Answers a line from its begin in these bytes to its end.
    fn take_line<R: Door<F>, D: FileDisk<File = F>, N: Names, C: Clock, O: Sink>(
        &mut self,
        alloc: Global,
        door: &mut R,
        disk: &mut D,
        names: &mut N,
        clock: &mut C,
        sink: &mut O,
        part: &[u8],
    ) -> Result<(), Stop>
        requires set { AreSet F.name F.size F.bytes (R.in_order door.old) (R.serves door.old)
            (R.opened door.old) self.old.sessions.items }
        requires counted { length self.old.counts.items ≡ 17 }
        requires begun { NoFeed self.old.pending.items }
        requires feed { NoFeed part.now }
        ensures set { AreSet F.name F.size F.bytes (R.in_order door.new) (R.serves door.new)
            (R.opened door.new) self.new.sessions.items }
        ensures counted { length self.new.counts.items ≡ 17 }
        ensures begun { NoFeed self.new.pending.items }
        ensures ok { OnOk result (spec.Answers self.old self.new
            (moment (R.stands door.old) self.old.sessions.items (D.files disk.old)
            (R.keeper_faults door.old) (D.faults disk.old))
            (moment (R.stands door.new) self.new.sessions.items (D.files disk.new)
            (R.keeper_faults door.new) (D.faults disk.new))
            (part.now ++ 10 ∷ []) (O.taken sink.old) (O.taken sink.new)) }
        ensures stop { IfErr result (λ stop. spec.Stops stop self.old
            (moment (R.stands door.old) self.old.sessions.items (D.files disk.old)
            (R.keeper_faults door.old) (D.faults disk.old))
            (moment (R.stands door.new) self.new.sessions.items (D.files disk.new)
            (R.keeper_faults door.new) (D.faults disk.new))
            (part.now ++ 10 ∷ []) (O.taken sink.old) (O.taken sink.new)) }
        ensures part { D.part disk.new ≡ D.part disk.old }
        ensures later { O.faults sink.old ≤ O.faults sink.new }
        ensures cause { result ≡ Err Stop.Write → Rose (O.faults sink.old) (O.faults sink.new) }
    {
        match self.hold(part) {
            Ok(()) => match self.end_line(alloc, door, disk, names, clock, sink) {
                Ok(()) => Ok(()),
                Err(stop) => Err(stop),
            },
            Err(_) => Err(Stop::Memory),
        }
    }

    /// Takes the bytes up to the next line feed, or all where there is none, and answers how many.
    fn take_some<R: Door<F>, D: FileDisk<File = F>, N: Names, C: Clock, O: Sink>(
        &mut self,
        alloc: Global,
        door: &mut R,
        disk: &mut D,
        names: &mut N,
        clock: &mut C,
        sink: &mut O,
        bytes: &[u8],
    ) -> Result<usize, Stop>
        requires set { AreSet F.name F.size F.bytes (R.in_order door.old) (R.serves door.old)
            (R.opened door.old) self.old.sessions.items }
        requires counted { length self.old.counts.items ≡ 17 }
        requires begun { NoFeed self.old.pending.items }
        requires some { 0 < length bytes.now }
        ensures set { AreSet F.name F.size F.bytes (R.in_order door.new) (R.serves door.new)
            (R.opened door.new) self.new.sessions.items }
        ensures counted { length self.new.counts.items ≡ 17 }
        ensures begun { NoFeed self.new.pending.items }
        ensures some { IfOk result (λ n. 0 < n) }
        ensures within { IfOk result (λ n. n ≤ length bytes.now) }
        ensures ok { IfOk result (λ n. spec.Answers self.old self.new
            (moment (R.stands door.old) self.old.sessions.items (D.files disk.old)
            (R.keeper_faults door.old) (D.faults disk.old))
            (moment (R.stands door.new) self.new.sessions.items (D.files disk.new)
            (R.keeper_faults door.new) (D.faults disk.new))
            (take n bytes.now) (O.taken sink.old) (O.taken sink.new)) }
        ensures stop { IfErr result (λ stop. spec.Stops stop self.old
            (moment (R.stands door.old) self.old.sessions.items (D.files disk.old)
            (R.keeper_faults door.old) (D.faults disk.old))
            (moment (R.stands door.new) self.new.sessions.items (D.files disk.new)
            (R.keeper_faults door.new) (D.faults disk.new))
            bytes.now (O.taken sink.old) (O.taken sink.new)) }
        ensures part { D.part disk.new ≡ D.part disk.old }
        ensures later { O.faults sink.old ≤ O.faults sink.new }
        ensures cause { result ≡ Err Stop.Write → Rose (O.faults sink.old) (O.faults sink.new) }
    {
        let len = line_len(bytes);
        if len < bytes.len() {
            return match self.take_line(
                alloc,
                door,
                disk,
                names,
                clock,
                sink,
                bytes.split_at(len).0,
            ) {
                Ok(()) => Ok(len + 1),
                Err(stop) => Err(stop),
            };
        }
        match self.hold(bytes) {
            Ok(()) => Ok(len),
            Err(_) => Err(Stop::Memory),
        }
    }

    /// Answers the lines that end in these bytes, and keeps what stands behind the last line feed.
    pub fn take<R: Door<F>, D: FileDisk<File = F>, N: Names, C: Clock, O: Sink>(
        &mut self,
        alloc: Global,
        door: &mut R,
        disk: &mut D,
        names: &mut N,
        clock: &mut C,
        sink: &mut O,
        piece: &[u8],
    ) -> Result<(), Stop>
        requires set { AreSet F.name F.size F.bytes (R.in_order door.old) (R.serves door.old)
            (R.opened door.old) self.old.sessions.items }
        requires counted { length self.old.counts.items ≡ 17 }
        requires begun { NoFeed self.old.pending.items }
        ensures set { AreSet F.name F.size F.bytes (R.in_order door.new) (R.serves door.new)
            (R.opened door.new) self.new.sessions.items }
        ensures counted { length self.new.counts.items ≡ 17 }
        ensures begun { NoFeed self.new.pending.items }
        ensures ok { OnOk result (spec.Answers self.old self.new
            (moment (R.stands door.old) self.old.sessions.items (D.files disk.old)
            (R.keeper_faults door.old) (D.faults disk.old))
            (moment (R.stands door.new) self.new.sessions.items (D.files disk.new)
            (R.keeper_faults door.new) (D.faults disk.new))
            piece.now (O.taken sink.old) (O.taken sink.new)) }
        ensures stop { IfErr result (λ stop. spec.Stops stop self.old
            (moment (R.stands door.old) self.old.sessions.items (D.files disk.old)
            (R.keeper_faults door.old) (D.faults disk.old))
            (moment (R.stands door.new) self.new.sessions.items (D.files disk.new)
            (R.keeper_faults door.new) (D.faults disk.new))
            piece.now (O.taken sink.old) (O.taken sink.new)) }
        ensures part { D.part disk.new ≡ D.part disk.old }
        ensures later { O.faults sink.old ≤ O.faults sink.new }
        ensures cause { result ≡ Err Stop.Write → Rose (O.faults sink.old) (O.faults sink.new) }
    {
        let mut at = 0;
        while at < piece.len() {
            match self.take_some(alloc, door, disk, names, clock, sink, &piece[at..]) {
                Ok(count) => at += count,
                Err(stop) => return Err(stop),
            }
        }
        Ok(())
    }
}
