ghost use Rattle.std.specs.Prelude.{◌≡◌, ℕ, List, Option, Some, ◌<◌, ◌≤◌, ◌↔◌, length, IsTrue, IsErr, IfOk, min, take};
ghost use Rattle.lake_io.specs.Causes.{HasCause};
ghost use Rattle.lake_io.specs.Told.{Gives, IsAtEnd, bytes_moved, count_after};

use crate::faults::{FailList, Failed, FaultInjector};
use std::marker::Model;

/// Where bytes come from.
pub trait Source {
    /// The bytes that aren't read yet, where that is told.
    ghost left: { Self → Option (List ℕ) };

    /// How many bytes its answers gave. It stands still at the last value of a `u64`.
    ghost given: { Self → ℕ };

    /// How often it has failed. It stands still at the last value of a `u64`.
    ghost faults: { Self → ℕ };

    /// Puts the next bytes at the front of `into`, and answers how many. It answers 0 at the end alone.
    fn read(&mut self, into: &mut [u8]) -> Result<usize, Failed>
        requires { 0 < length into.old }
        ensures bound { IfOk result (λ n. n ≤ length into.new) }
        ensures bytes { Gives (left self.old) (left self.new) (bytes_moved result into.new) }
        ensures end { IfOk result (λ n. n ≡ 0 → IsAtEnd (left self.new)) }
        ensures given { given self.new ≡ count_after (given self.old) result }
        ensures cause { HasCause (faults self.old) (faults self.new) result };
}

/// Puts the first bytes of `rest` at the front of `into`, as many as fit, and answers how many.
fn copy_front(into: &mut [u8], rest: &[u8]) -> usize
    ensures count { result ≡ min (length rest.now) (length into.old) }
    ensures bytes { take result into.new ≡ take result rest.now }
{
    let count = rest.len().min(into.len());
    into[..count].copy_from_slice(&rest[..count]);
    count
}

/// A source in memory that never fails.
#[derive(Debug, Drop)]
pub struct SureSource {
    bytes: Vec<u8>,
    at: usize,
    given: u64,
}

impl Model for SureSource {
    ghost use Rattle.std.specs.Prelude.{◌≤◌, length, drop};
    ghost use Rattle.lake_io.specs.Memory.{SourceBytes};

    ghost Value = { SourceBytes };

    ghost view = { λ s. record { left = drop s.at s.bytes.items; given = s.given } };

    ghost invariant = { λ s. s.at ≤ length s.bytes.items };
}

impl SureSource {
    pub fn new(bytes: Vec<u8>) -> SureSource
        ensures { result ≡ record { left = bytes.items; given = 0 } }
    {
        SureSource {
            bytes,
            at: 0,
            given: 0,
        }
    }
}

impl Source for SureSource {
    ghost left = { λ s. Some s.left };

    ghost given = { λ s. s.given };

    ghost faults = { λ _. 0 };

    /// Gives as many bytes as are left and fit, and never fails.
    fn read(&mut self, into: &mut [u8]) -> Result<usize, Failed>
        requires { 0 < length into.old }
        ensures count { result ≡ Ok (min (length self.old.left) (length into.old)) }
        ensures bound { IfOk result (λ n. n ≤ length into.new) }
        ensures bytes { Gives (Some self.old.left) (Some self.new.left) (bytes_moved result into.new) }
        ensures end { IfOk result (λ n. n ≡ 0 → IsAtEnd (Some self.new.left)) }
        ensures given { self.new.given ≡ count_after self.old.given result }
        ensures cause { HasCause 0 0 result }
    {
        let count = copy_front(into, &self.bytes[self.at..]);
        self.at += count;
        self.given = self.given.saturating_add(count as u64);
        Ok(count)
    }
}

/// A source in memory that fails at the calls of a list.
#[derive(Debug, Drop)]
pub struct MemSource {
    source: SureSource,
    injector: FaultInjector,
}

impl Model for MemSource {
    ghost use Rattle.lake_io.specs.Memory.{FailingSource};

    ghost Value = { FailingSource };

    ghost view = { λ s. record { bytes = s.source; injected = s.injector } };
}

impl MemSource {
    pub fn new(bytes: Vec<u8>, fails: FailList) -> MemSource
        ensures bytes { result.bytes ≡ record { left = bytes.items; given = 0 } }
        ensures injected { result.injected ≡ record { fails = fails; calls = 0; faults = 0 } }
    {
        MemSource {
            source: SureSource::new(bytes),
            injector: FaultInjector::new(fails),
        }
    }

    /// How often it has failed.
    pub fn faults(&self) -> u64
        ensures { result ≡ self.now.injected.faults }
    {
        self.injector.faults()
    }
}

impl Source for MemSource {
    ghost use Rattle.lake_io.specs.FailList.{fails_next, after_call};

    ghost left = { λ s. Some s.bytes.left };

    ghost given = { λ s. s.bytes.given };

    ghost faults = { λ s. s.injected.faults };

    /// Fails at exactly the calls of its list, and else gives as many bytes as are left and fit.
    fn read(&mut self, into: &mut [u8]) -> Result<usize, Failed>
        requires { 0 < length into.old }
        ensures counts { self.new.injected ≡ after_call self.old.injected }
        ensures fails { IsErr result ↔ IsTrue (fails_next self.old.injected) }
        ensures count { IfOk result (λ n. n ≡ min (length self.old.bytes.left) (length into.old)) }
        ensures bound { IfOk result (λ n. n ≤ length into.new) }
        ensures bytes { Gives (Some self.old.bytes.left) (Some self.new.bytes.left) (bytes_moved result into.new) }
        ensures end { IfOk result (λ n. n ≡ 0 → IsAtEnd (Some self.new.bytes.left)) }
        ensures given { self.new.bytes.given ≡ count_after self.old.bytes.given result }
        ensures cause { HasCause self.old.injected.faults self.new.injected.faults result }
    {
        self.injector.count_call()?;
        self.source.read(into)
    }
}
