//! The longest lines and names, and the deepest tests.

use crate::answers::{is_fault, is_printed, is_read, is_too_long};
use std::alloc::{AllocError, Global};
use std::test::Fail;
use stmt_text::session_of_line;

/// The most bytes of a line.
const LINE_MOST: usize = 1_048_576;

/// A line with so many bytes of one kind behind its start.
fn with_many(alloc: Global, start: &[u8], byte: u8, count: usize) -> Result<Vec<u8>, AllocError> {
    let mut line = Vec::from_slice(alloc, start)?;
    for _ in 0..count {
        line.push(byte)?;
    }
    Ok(line)
}

/// A line with a test in so many parentheses.
fn in_parentheses(alloc: Global, count: usize) -> Result<Vec<u8>, AllocError> {
    let mut line = with_many(alloc, b"1 SELECT * FROM t WHERE ", b'(', count)?;
    line.extend_from_slice(b"a IS NOT NULL")?;
    for _ in 0..count {
        line.push(b')')?;
    }
    Ok(line)
}

#[test]
fn longest_line(rt: HostRuntime) -> Result<(), Fail> {
    let alloc = rt.alloc();
    let line = with_many(alloc, b"3 CLEAN", b' ', LINE_MOST - 7)?;
    assert!(rt; is_printed(alloc, line.as_slice(), "3 CLEAN "));
    let line = with_many(alloc, b"3 CLEAN", b' ', LINE_MOST - 6)?;
    assert!(rt; is_too_long(alloc, line.as_slice(), 3));
    let line = with_many(alloc, b"-3 CLEAN", b' ', LINE_MOST)?;
    assert!(rt; is_too_long(alloc, line.as_slice(), 0));
    let line = with_many(alloc, b"\t 016", b'x', LINE_MOST)?;
    assert!(rt; is_too_long(alloc, line.as_slice(), 16));
    let line = with_many(alloc, b"", b'1', LINE_MOST + 1)?;
    assert!(rt; is_too_long(alloc, line.as_slice(), 0));
    Ok(())
}

#[test]
fn sessions(rt: HostRuntime) -> Result<(), Fail> {
    let table: [(&[u8], u8); 8] = [
        (b"", 0),
        (b"  ", 0),
        (b"7", 7),
        (b" \t 0000000000000000000000016BEGIN", 16),
        (b"17 BEGIN", 0),
        (b"-1 BEGIN", 0),
        (b"\"1\" BEGIN", 0),
        (b"1\xff", 1),
    ];
    for (line, session) in table {
        assert!(rt; session_of_line(line) == session);
    }
    Ok(())
}

#[test]
fn deepest_test(rt: HostRuntime) -> Result<(), Fail> {
    let alloc = rt.alloc();
    let line = in_parentheses(alloc, 64)?;
    assert!(rt; is_read(alloc, line.as_slice()));
    let line = in_parentheses(alloc, 65)?;
    assert!(rt; is_fault(alloc, line.as_slice(), 1, 88));
    let line = with_many(alloc, b"1 SELECT * FROM t WHERE ", b'(', 1_000_000)?;
    assert!(rt; is_fault(alloc, line.as_slice(), 1, 88));
    Ok(())
}

#[test]
fn longest_names(rt: HostRuntime) -> Result<(), Fail> {
    let alloc = rt.alloc();
    let line = with_many(alloc, b"1 DROP SCHEMA ", b'a', 255)?;
    assert!(rt; is_read(alloc, line.as_slice()));
    let line = with_many(alloc, b"1 DROP SCHEMA ", b'a', 256)?;
    assert!(rt; is_fault(alloc, line.as_slice(), 1, 14));
    let mut line = with_many(alloc, b"1 DROP SCHEMA \"", b'a', 255)?;
    line.push(b'"')?;
    assert!(rt; is_read(alloc, line.as_slice()));
    let mut line = with_many(alloc, b"1 DROP SCHEMA \"", b'a', 256)?;
    line.push(b'"')?;
    assert!(rt; is_fault(alloc, line.as_slice(), 1, 14));
    Ok(())
}
