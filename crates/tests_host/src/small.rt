use host_edge::{HostClock, HostNames, StdSink, StdSource};
use lake_io::{Clock, Names, Sink, Source};
use std::test::Fail;

#[test]
fn standard_input_ends(rt: HostRuntime) -> Result<(), Fail> {
    let mut source = StdSource::new(rt.stdin());
    let mut piece = [0u8; 16];
    assert!(rt; source.read(piece.as_mut_slice()).is_ok());
    assert_eq!(rt; source.faults(), 0);
    Ok(())
}

#[test]
fn standard_output_takes_some(rt: HostRuntime) -> Result<(), Fail> {
    let mut sink = StdSink::new(rt.stdout());
    let count = sink.write(b"\n").ok();
    assert_eq!(rt; (count, sink.faults()), (Some(1), 0));
    Ok(())
}

#[test]
fn two_runs_draw_other_numbers(rt: HostRuntime) -> Result<(), Fail> {
    let mut names = HostNames::new(&rt).ok().ok_or("no seed")?;
    let mut others = HostNames::new(&rt).ok().ok_or("no seed")?;
    let (first, second, other) = (names.next(), names.next(), others.next());
    assert!(rt; first != second && first != other && second != other);
    Ok(())
}

/// The beginning of 2020.
const YEAR_2020: i64 = 1_577_836_800_000;

#[test]
fn the_time_is_told(rt: HostRuntime) -> Result<(), Fail> {
    let mut clock = HostClock::new(&rt);
    let time = clock.now();
    assert!(rt; time > YEAR_2020);
    assert_eq!(rt; clock.faults(), 0);
    Ok(())
}
