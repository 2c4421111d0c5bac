ghost use Rattle.std.specs.Prelude.{◌≡◌, ℕ, List, [], Option, ◌<◌, ◌≤◌, ◌↔◌, length, Ok, IsTrue, IsErr, IfOk, OnOk, OnErr, take};
ghost use Rattle.lake_io.specs.Causes.{HasCause};
ghost use Rattle.lake_io.specs.Told.{Takes, bytes_moved};

use crate::faults::{FailList, Failed, FaultInjector};
use std::alloc::{AllocError, Global};
use std::marker::Model;

/// Where bytes go.
pub trait Sink {
    /// The bytes that it has taken, where that is told.
    ghost taken: { Self → Option (List ℕ) };

    /// How often it has failed. It stands still at the last value of a `u64`.
    ghost faults: { Self → ℕ };

    /// Takes the first bytes of a piece, at least one, and answers how many.
    fn write(&mut self, piece: &[u8]) -> Result<usize, Failed>
        requires { 0 < length piece.now }
        ensures some { IfOk result (λ n. 0 < n) }
        ensures bound { IfOk result (λ n. n ≤ length piece.now) }
        ensures bytes { Takes (taken self.old) (taken self.new) (bytes_moved result piece.now) }
        ensures cause { HasCause (faults self.old) (faults self.new) result };
}

/// Writes the whole piece. At a fault the sink has taken less than all of it, from its first byte.
pub fn write_all<O: Sink>(sink: &mut O, piece: &[u8]) -> Result<(), Failed>
    ensures ok { OnOk result (Takes (O.taken sink.old) (O.taken sink.new) piece.now) }
    ensures part { OnErr result ((n : ℕ) × (n < length piece.now) × Takes (O.taken sink.old) (O.taken sink.new) (take n piece.now)) }
    ensures cause { HasCause (O.faults sink.old) (O.faults sink.new) result }
{
    let mut at = 0;
    while at < piece.len() {
        at += sink.write(&piece[at..])?;
    }
    Ok(())
}

/// A sink in memory that never fails.
#[derive(Debug, Drop)]
pub struct SureSink {
    bytes: Vec<u8>,
    room: usize,
    dropped: u64,
}

impl Model for SureSink {
    ghost use Rattle.std.specs.Prelude.{◌≤◌, ◌+◌, length, vec_capacity};
    ghost use Rattle.lake_io.specs.Memory.{SinkBytes};

    ghost Value = { SinkBytes };

    ghost view = { λ s. record { kept = s.bytes.items; room = s.room; dropped = s.dropped } };

    ghost invariant = { λ s. length s.bytes.items + s.room ≤ vec_capacity s.bytes };
}

impl SureSink {
    /// A sink with room for so many bytes. It takes any number, and what doesn't fit is dropped and counted.
    pub fn with_room(alloc: Global, bytes: usize) -> Result<SureSink, AllocError>
        ensures { IfOk result (λ sink. sink ≡ record { kept = []; room = bytes; dropped = 0 }) }
    {
        Ok(SureSink {
            bytes: Vec::with_capacity(alloc, bytes)?,
            room: bytes,
            dropped: 0,
        })
    }

    /// What it kept.
    pub fn bytes(&self) -> &[u8]
        ensures { result.now ≡ self.now.kept }
    {
        self.bytes.as_slice()
    }
}

impl Sink for SureSink {
    ghost use Rattle.lake_io.specs.Memory.{taken_by, sink_after};

    ghost taken = { taken_by };

    ghost faults = { λ _. 0 };

    /// Takes the whole piece and never fails. It keeps what fits, drops the rest and counts it.
    fn write(&mut self, piece: &[u8]) -> Result<usize, Failed>
        requires { 0 < length piece.now }
        ensures whole { result ≡ Ok (length piece.now) }
        ensures kept { self.new ≡ sink_after self.old piece.now }
        ensures some { IfOk result (λ n. 0 < n) }
        ensures bound { IfOk result (λ n. n ≤ length piece.now) }
        ensures bytes { Takes (taken_by self.old) (taken_by self.new) (bytes_moved result piece.now) }
        ensures cause { HasCause 0 0 result }
    {
        let fits = piece.len().min(self.room);
        // There is room for these, so this takes no memory and can't fail.
        self.bytes.extend_from_slice(&piece[..fits]).unwrap();
        self.room -= fits;
        self.dropped = self.dropped.saturating_add((piece.len() - fits) as u64);
        Ok(piece.len())
    }
}

/// A sink in memory that fails at the calls of a list.
#[derive(Debug, Drop)]
pub struct MemSink {
    sink: SureSink,
    injector: FaultInjector,
}

impl Model for MemSink {
    ghost use Rattle.lake_io.specs.Memory.{FailingSink};

    ghost Value = { FailingSink };

    ghost view = { λ s. record { bytes = s.sink; injected = s.injector } };
}

impl MemSink {
    /// As `SureSink::with_room`, with the calls that fail.
    pub fn with_room(alloc: Global, bytes: usize, fails: FailList) -> Result<MemSink, AllocError>
        ensures bytes { IfOk result (λ sink. sink.bytes ≡ record { kept = []; room = bytes; dropped = 0 }) }
        ensures injected { IfOk result (λ sink. sink.injected ≡ record { fails = fails; calls = 0; faults = 0 }) }
    {
        Ok(MemSink {
            sink: SureSink::with_room(alloc, bytes)?,
            injector: FaultInjector::new(fails),
        })
    }

    /// What it kept.
    pub fn bytes(&self) -> &[u8]
        ensures { result.now ≡ self.now.bytes.kept }
    {
        self.sink.bytes()
    }

    /// How often it has failed.
    pub fn faults(&self) -> u64
        ensures { result ≡ self.now.injected.faults }
    {
        self.injector.faults()
    }
}

impl Sink for MemSink {
    ghost use Rattle.lake_io.specs.FailList.{fails_next, after_call};
    ghost use Rattle.lake_io.specs.Memory.{taken_by, sink_after};

    ghost taken = { λ s. taken_by s.bytes };

    ghost faults = { λ s. s.injected.faults };

    /// Fails at exactly the calls of its list, and else takes the whole piece as a `SureSink` does.
    fn write(&mut self, piece: &[u8]) -> Result<usize, Failed>
        requires { 0 < length piece.now }
        ensures counts { self.new.injected ≡ after_call self.old.injected }
        ensures fails { IsErr result ↔ IsTrue (fails_next self.old.injected) }
        ensures whole { IfOk result (λ n. n ≡ length piece.now) }
        ensures kept { OnOk result (self.new.bytes ≡ sink_after self.old.bytes piece.now) }
        ensures failed { OnErr result (self.new.bytes ≡ self.old.bytes) }
        ensures some { IfOk result (λ n. 0 < n) }
        ensures bound { IfOk result (λ n. n ≤ length piece.now) }
        ensures bytes { Takes (taken_by self.old.bytes) (taken_by self.new.bytes) (bytes_moved result piece.now) }
        ensures cause { HasCause self.old.injected.faults self.new.injected.faults result }
    {
        self.injector.count_call()?;
        self.sink.write(piece)
    }
}
