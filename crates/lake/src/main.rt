//! The program `lake`: answers the script on standard input, on standard output, over a lake in memory.
#![tactic(auto)]

mod streams;
mod system_clock;

use cat_rows::CatRows;
use file_disk::SureDisk;
use keeper::SureKeeper;
use lake_io::CountNames;
use lake_top::{Status, run};
use std::alloc::Global;
use std::env;
use std::io::{self, ErrorKind};
use std::process::ExitCode;
use streams::{StdSink, StdSource};
use system_clock::SystemClock;

/// The words of the command line; none where one of them is no text, which is refused like too many.
fn words(rt: &HostRuntime, alloc: Global) -> io::Result<Vec<String>> {
    match env::args(rt) {
        Ok(words) => Ok(words.collect(alloc)?),
        Err(error) if error.kind() == ErrorKind::InvalidData => Ok(Vec::new(alloc)),
        Err(error) => Err(error),
    }
}

/// Ends the program before a script is read, since there is no memory for the words.
fn without_words(rt: &HostRuntime) -> Status {
    match rt.stdout().write_all(b"! no memory\n") {
        Ok(()) => Status::Memory,
        Err(_) => Status::WriteFault,
    }
}

/// Runs over a new lake, whose rows and files lie in memory and end with the program.
fn run_in_memory(rt: HostRuntime, words: &[String]) -> Status {
    let alloc = rt.alloc();
    let mut input = StdSource::new(rt.stdin());
    let mut output = StdSink::new(rt.stdout());
    let keeper = SureKeeper::new(CatRows::empty(alloc));
    let mut disk = SureDisk::new(alloc);
    let mut names = CountNames::new(1);
    let mut clock = SystemClock::new(rt);
    let (status, _keeper) = run(
        alloc,
        words,
        &mut input,
        &mut output,
        keeper,
        &mut disk,
        &mut names,
        &mut clock,
    );
    status
}

fn main(rt: HostRuntime) -> ExitCode {
    let status = match words(&rt, rt.alloc()) {
        Ok(words) => run_in_memory(rt, words.as_slice()),
        Err(_) => without_words(&rt),
    };
    ExitCode::from(status as u8)
}
