ghost use Rattle.std.specs.Prelude.{◌≡◌, ◌↔◌, IsTrue, IsErr};
ghost use Rattle.lake_io.specs.Causes.{HasCause};

use std::marker::Model;
use thiserror::Error;

/// A device failed, and what the call was to do didn't happen.
#[derive(Clone, Copy, Debug, PartialEq, Eq, Error)]
#[error("the device failed")]
pub struct Failed;

/// The calls of a device in memory that fail, numbered from 1.
#[derive(Debug, Drop)]
pub struct FailList {
    /// The numbers of single calls.
    pub calls: Vec<u64>,
    /// The first call from which on all fail, as if the device had stopped there.
    pub from: Option<u64>,
}

impl FailList {
    ghost use Rattle.lake_io.specs.FailList.{is_listed};

    /// Whether the call with this number fails.
    pub fn lists(&self, call: u64) -> bool
        ensures { result ≡ is_listed self.now call }
    {
        if self.calls.contains(&call) {
            return true;
        }
        match self.from {
            Some(from) => from <= call,
            None => false,
        }
    }
}

/// Counts the calls of a device in memory, and lets those of a list fail.
#[derive(Debug, Drop)]
pub struct FaultInjector {
    fails: FailList,
    calls: u64,
    faults: u64,
}

impl Model for FaultInjector {
    ghost use Rattle.lake_io.specs.FailList.{Injected};

    ghost Value = { Injected };

    ghost view = { λ i. record { fails = i.fails; calls = i.calls; faults = i.faults } };
}

impl FaultInjector {
    ghost use Rattle.lake_io.specs.FailList.{fails_next, after_call};

    /// No call has been made.
    pub fn new(fails: FailList) -> FaultInjector
        ensures { result ≡ record { fails = fails; calls = 0; faults = 0 } }
    {
        FaultInjector {
            fails,
            calls: 0,
            faults: 0,
        }
    }

    /// How many calls have failed.
    pub fn faults(&self) -> u64
        ensures { result ≡ self.now.faults }
    {
        self.faults
    }

    /// Counts one more call, and answers whether it fails.
    pub fn count_call(&mut self) -> Result<(), Failed>
        ensures counts { self.new ≡ after_call self.old }
        ensures fails { IsErr result ↔ IsTrue (fails_next self.old) }
        ensures cause { HasCause self.old.faults self.new.faults result }
    {
        self.calls = self.calls.saturating_add(1);
        if self.fails.lists(self.calls) {
            self.faults = self.faults.saturating_add(1);
            return Err(Failed);
        }
        Ok(())
    }
}
