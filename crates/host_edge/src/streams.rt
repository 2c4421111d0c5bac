ghost use Rattle.std.specs.Prelude.{◌≡◌, None};

use lake_io::{Failed, Sink, Source};
use std::io::{Print, Read, Stdin, Stdout};

/// Standard input. It tells nothing of its bytes, and counts each error of the system.
#[derive(Drop)]
pub struct StdSource {
    input: Stdin,
    given: u64,
    faults: u64,
}

impl StdSource {
    pub fn new(input: Stdin) -> StdSource
        ensures given { result.given ≡ 0 }
        ensures faults { result.faults ≡ 0 }
    {
        StdSource {
            input,
            given: 0,
            faults: 0,
        }
    }

    /// How often a read has failed.
    pub fn faults(&self) -> u64
        ensures { result ≡ self.now.faults }
    {
        self.faults
    }
}

impl Source for StdSource {
    ghost left = { λ s. None };

    ghost given = { λ s. s.given };

    ghost faults = { λ s. s.faults };

    fn read(&mut self, into: &mut [u8]) -> Result<usize, Failed> {
        match self.input.read(into) {
            Ok(count) => {
                self.given = self.given.saturating_add(count as u64);
                Ok(count)
            }
            Err(_) => {
                self.faults = self.faults.saturating_add(1);
                Err(Failed)
            }
        }
    }
}

/// Standard output. It tells nothing of its bytes, and counts each error of the system. A stream that takes nothing is
/// one.
#[derive(Drop)]
pub struct StdSink {
    output: Stdout,
    faults: u64,
}

impl StdSink {
    pub fn new(output: Stdout) -> StdSink
        ensures { result.faults ≡ 0 }
    {
        StdSink { output, faults: 0 }
    }

    /// How often a write has failed.
    pub fn faults(&self) -> u64
        ensures { result ≡ self.now.faults }
    {
        self.faults
    }
}

impl Sink for StdSink {
    ghost taken = { λ s. None };

    ghost faults = { λ s. s.faults };

    fn write(&mut self, piece: &[u8]) -> Result<usize, Failed> {
        match self.output.write_some(piece) {
            Ok(count) if count > 0 => Ok(count),
            _ => {
                self.faults = self.faults.saturating_add(1);
                Err(Failed)
            }
        }
    }
}
