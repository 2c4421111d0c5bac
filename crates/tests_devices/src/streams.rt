use lake_io::{
    Clock, CountNames, FailList, Failed, FixedClock, MemSink, MemSource, Names, Sink, Source,
    SureSink, SureSource, write_all,
};
use std::alloc::{AllocError, Global};
use std::test::Fail;

fn fails_at(alloc: Global, calls: &[u64], from: Option<u64>) -> Result<FailList, AllocError> {
    Ok(FailList {
        calls: calls.to_vec(alloc)?,
        from,
    })
}

#[test]
fn source_fails_at_its_calls(rt: HostRuntime) -> Result<(), Fail> {
    let alloc = rt.alloc();
    let fails = fails_at(alloc, &[2, 4], Some(7))?;
    let mut source = MemSource::new(b"abcd".to_vec(alloc)?, fails);
    let mut into = [0u8; 3];
    let answers = [
        Ok(3),
        Err(Failed),
        Ok(1),
        Err(Failed),
        Ok(0),
        Ok(0),
        Err(Failed),
        Err(Failed),
    ];
    for answer in answers {
        assert_eq!(rt; source.read(&mut into), answer);
    }
    assert_eq!(rt; into, [b'd', b'b', b'c']);
    assert_eq!(rt; source.faults(), 4);
    Ok(())
}

#[test]
fn sure_source_ends(rt: HostRuntime) -> Result<(), Fail> {
    let alloc = rt.alloc();
    let mut source = SureSource::new(b"ab".to_vec(alloc)?);
    let mut into = [0u8; 1];
    for answer in [1, 1, 0, 0] {
        assert_eq!(rt; source.read(&mut into), Ok(answer));
    }
    Ok(())
}

#[test]
fn sinks_keep_what_fits(rt: HostRuntime) -> Result<(), Fail> {
    let alloc = rt.alloc();
    let mut sure = SureSink::with_room(alloc, 4)?;
    let mut sink = MemSink::with_room(alloc, 4, fails_at(alloc, &[2], None)?)?;
    for (piece, answer) in [("abc", Ok(())), ("de", Err(Failed)), ("fg", Ok(()))] {
        assert_eq!(rt; write_all(&mut sure, piece.as_bytes()), Ok(()));
        assert_eq!(rt; write_all(&mut sink, piece.as_bytes()), answer);
    }
    assert_eq!(rt; sure.bytes(), b"abcd".as_slice());
    assert_eq!(rt; sink.bytes(), b"abcf".as_slice());
    assert_eq!(rt; sink.faults(), 1);
    Ok(())
}

#[test]
fn names_wrap_and_the_clock_stands(rt: HostRuntime) {
    let mut names = CountNames::new(u128::MAX);
    assert_eq!(rt; names.next(), u128::MAX);
    assert_eq!(rt; names.next(), 0);
    let mut clock = FixedClock::new(-5);
    assert_eq!(rt; clock.now(), -5);
    assert_eq!(rt; clock.now(), -5);
}
