//! Times the crates, a word of the command line for each: `encodings`, `spans`, `rules`, `file`, `lines` or `inserts`, beside
//! something in the same process that every machine does at its own speed. With `time` behind its word a bench prints times
//! and their ratio; alone it prints counts and sums of a small input. Without any word all of them do so.
#![tactic(auto)]

mod encodings;
mod file;
mod inserts;
mod lines;
mod rules;
mod spans;
mod times;

use anyhow::Result;
use std::alloc::Global;
use std::env;
use std::rt::Clock;

/// What is timed.
#[derive(Clone, Copy)]
enum Bench {
    Encodings,
    Spans,
    Rules,
    File,
    Lines,
    Inserts,
}

/// The bench of a word; none of another word.
fn bench_of(word: &str) -> Option<Bench> {
    match word {
        "encodings" => Some(Bench::Encodings),
        "spans" => Some(Bench::Spans),
        "rules" => Some(Bench::Rules),
        "file" => Some(Bench::File),
        "lines" => Some(Bench::Lines),
        "inserts" => Some(Bench::Inserts),
        _ => None,
    }
}

fn print_small(rt: &impl Print, alloc: Global, bench: Bench) -> Result<()> {
    match bench {
        Bench::Encodings => encodings::print_small(rt, alloc),
        Bench::Spans => spans::print_small(rt, alloc),
        Bench::Rules => rules::print_small(rt, alloc),
        Bench::File => file::print_small(rt, alloc),
        Bench::Lines => lines::print_small(rt, alloc),
        Bench::Inserts => inserts::print_small(rt, alloc),
    }
}

fn print_all(rt: &impl Print, alloc: Global) -> Result<()> {
    print_small(rt, alloc, Bench::Encodings)?;
    print_small(rt, alloc, Bench::Spans)?;
    print_small(rt, alloc, Bench::Rules)?;
    print_small(rt, alloc, Bench::File)?;
    print_small(rt, alloc, Bench::Lines)?;
    print_small(rt, alloc, Bench::Inserts)
}

fn print_times(rt: &(impl Print + Clock), alloc: Global, bench: Bench, how: &str) -> Result<()> {
    match bench {
        Bench::Encodings => encodings::print_times(rt, alloc),
        Bench::Spans => spans::print_times(rt, alloc),
        Bench::Rules => rules::print_times(rt, alloc),
        Bench::File => file::print_many(rt, alloc, how),
        Bench::Lines => lines::print_times(rt, alloc),
        Bench::Inserts => inserts::print_times(rt, alloc),
    }
}

fn main(rt: HostRuntime) -> Result<()> {
    let alloc = rt.alloc();
    let mut words = env::args(&rt)?.skip(1);
    let Some(word) = words.next() else {
        return print_all(&rt, alloc);
    };
    let Some(bench) = bench_of(word.as_str()) else {
        println!(rt; "usage: bench [encodings|spans|rules|file|lines|inserts [time]]")?;
        return Ok(());
    };
    match words.next() {
        Some(how) => print_times(&rt, alloc, bench, how.as_str()),
        None => print_small(&rt, alloc, bench),
    }
}
