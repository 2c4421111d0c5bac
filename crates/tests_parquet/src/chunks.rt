//! The same two cells in three spellings, and faults with their places.

ghost use Rattle.std.specs.Prelude.{◌≡◌, IfOk, pos, true, false, [], ◌∷◌};
ghost use Rattle.pq_encodings.specs.Values.{i64s};
ghost use Rattle.pq_pages.specs.Pages.{cells_of};

use pq_encodings::{EncFault, Physical, Plain};
use pq_pages::{ChunkSpec, PageFault, RawCells, read_chunk, write_chunk};
use std::alloc::{AllocError, Global};
use std::test::Fail;
use thrift_compact::ThriftFault;

/// A page of the first form with the cells 7 and NULL.
fn first_form() -> &'static [u8] {
    &[
        0x15, 0x00, 0x15, 0x20, 0x15, 0x20, 0x2c, 0x15, 0x04, 0x15, 0x00, 0x15, 0x06, 0x15, 0x06,
        0x00, 0x00, 4, 0, 0, 0, 0x02, 0x01, 0x02, 0x00, 7, 0, 0, 0, 0, 0, 0, 0,
    ]
}

/// The same of the second form.
fn second_form() -> &'static [u8] {
    &[
        0x15, 0x06, 0x15, 0x18, 0x15, 0x18, 0x5c, 0x15, 0x04, 0x15, 0x02, 0x15, 0x04, 0x15, 0x00,
        0x15, 0x08, 0x15, 0x00, 0x00, 0x00, 0x02, 0x01, 0x02, 0x00, 7, 0, 0, 0, 0, 0, 0, 0,
    ]
}

/// The same with a dictionary.
fn with_dictionary() -> &'static [u8] {
    &[
        0x15, 0x04, 0x15, 0x10, 0x15, 0x10, 0x4c, 0x15, 0x02, 0x15, 0x00, 0x00, 0x00, 7, 0, 0, 0,
        0, 0, 0, 0, 0x15, 0x00, 0x15, 0x16, 0x15, 0x16, 0x2c, 0x15, 0x04, 0x15, 0x10, 0x15, 0x06,
        0x15, 0x06, 0x00, 0x00, 4, 0, 0, 0, 0x02, 0x01, 0x02, 0x00, 0x01, 0x02, 0x00,
    ]
}

/// Its data page alone, whose indices need a dictionary.
fn without_dictionary() -> &'static [u8] {
    &[
        0x15, 0x00, 0x15, 0x16, 0x15, 0x16, 0x2c, 0x15, 0x04, 0x15, 0x10, 0x15, 0x06, 0x15, 0x06,
        0x00, 0x00, 4, 0, 0, 0, 0x02, 0x01, 0x02, 0x00, 0x01, 0x02, 0x00,
    ]
}

/// A run of 2 ^ 31 levels, where two are wanted.
fn long_run() -> &'static [u8] {
    &[
        0x15, 0x00, 0x15, 0x14, 0x15, 0x14, 0x2c, 0x15, 0x04, 0x15, 0x00, 0x15, 0x06, 0x15, 0x06,
        0x00, 0x00, 6, 0, 0, 0, 0x80, 0x80, 0x80, 0x80, 0x10, 0x01,
    ]
}

/// Seventeen structs inside one another, in a field that is not known.
fn seventeen_structs() -> &'static [u8] {
    &[
        0x9c, 0x1c, 0x1c, 0x1c, 0x1c, 0x1c, 0x1c, 0x1c, 0x1c, 0x1c, 0x1c, 0x1c, 0x1c, 0x1c, 0x1c,
        0x1c, 0x1c,
    ]
}

/// A text that is no UTF-8 before one that is cut off.
fn bad_text_first() -> &'static [u8] {
    &[
        0x15, 0x00, 0x15, 0x16, 0x15, 0x16, 0x2c, 0x15, 0x04, 0x15, 0x00, 0x15, 0x06, 0x15, 0x06,
        0x00, 0x00, 1, 0, 0, 0, 0xff, 9, 0, 0, 0, 0, 0,
    ]
}

fn longs(codec: i32, num_values: u64) -> ChunkSpec {
    ChunkSpec {
        codec,
        kind: Physical::Int64,
        optional: true,
        num_values,
        text: false,
    }
}

fn texts(num_values: u64) -> ChunkSpec {
    ChunkSpec {
        codec: 0,
        kind: Physical::ByteArray,
        optional: false,
        num_values,
        text: true,
    }
}

fn is_seven(plain: &Plain) -> bool {
    match plain {
        Plain::I64s(values) => values.as_slice() == [7].as_slice(),
        _ => false,
    }
}

fn are_seven_and_null(cells: &RawCells) -> bool {
    cells.defined.as_slice() == [true, false].as_slice() && is_seven(&cells.plain)
}

fn gives_seven_and_null(alloc: Global, bytes: &[u8]) -> bool {
    match read_chunk(alloc, bytes, &longs(0, 2)) {
        Ok(cells) => are_seven_and_null(&cells),
        Err(_) => false,
    }
}

fn refuses(alloc: Global, bytes: &[u8], spec: &ChunkSpec, want: PageFault) -> bool {
    match read_chunk(alloc, bytes, spec) {
        Ok(_) => false,
        Err(fault) => fault == want,
    }
}

#[test]
fn three_spellings_of_two_cells(rt: HostRuntime) {
    assert!(rt; gives_seven_and_null(rt.alloc(), first_form()));
    assert!(rt; gives_seven_and_null(rt.alloc(), second_form()));
    assert!(rt; gives_seven_and_null(rt.alloc(), with_dictionary()));
}

fn seven_and_null(alloc: Global) -> Result<RawCells, AllocError>
    ensures { IfOk result (λ cells. cells_of cells ≡ record { defined = true ∷ false ∷ []; values = i64s (pos 7 ∷ []) }) }
{
    Ok(RawCells {
        defined: vec![in alloc; true, false]?,
        plain: Plain::I64s(vec![in alloc; 7i64]?),
    })
}

#[test]
fn cells_are_written_in_the_first_form(rt: HostRuntime) -> Result<(), Fail> {
    let cells = seven_and_null(rt.alloc())?;
    let bytes = write_chunk(rt.alloc(), &cells, true)?;
    assert!(rt; bytes.as_slice() == first_form());
    Ok(())
}

#[test]
fn faults_of_chunks(rt: HostRuntime) {
    let short = PageFault::Values(EncFault::Short { at: 0 });
    assert!(rt;
        refuses(
            rt.alloc(),
            &[],
            &longs(1, 1),
            PageFault::Compressed { codec: 1 }
        )
    );
    assert!(rt;
        refuses(
            rt.alloc(),
            &[],
            &longs(0, 1),
            PageFault::Count { want: 1, got: 0 }
        )
    );
    assert!(rt;
        refuses(
            rt.alloc(),
            first_form(),
            &longs(0, 3),
            PageFault::Count { want: 3, got: 2 }
        )
    );
    assert!(rt;
        refuses(
            rt.alloc(),
            first_form(),
            &longs(0, 1),
            PageFault::Count { want: 1, got: 2 }
        )
    );
    assert!(rt;
        refuses(
            rt.alloc(),
            &[0x15, 0x00, 0x25, 0x02],
            &longs(0, 1),
            PageFault::Thrift(ThriftFault::Short { at: 4 })
        )
    );
    assert!(rt;
        refuses(
            rt.alloc(),
            &[0x15, 0x02, 0x25, 0x02, 0x00],
            &longs(0, 1),
            short
        )
    );
}

#[test]
fn faults_of_headers(rt: HostRuntime) {
    let deep = PageFault::Thrift(ThriftFault::TooDeep { at: 17 });
    assert!(rt;
        refuses(
            rt.alloc(),
            &[0x00],
            &longs(0, 1),
            PageFault::Missing { id: 1 }
        )
    );
    assert!(rt;
        refuses(
            rt.alloc(),
            &[0x15, 0x00, 0x25, 0x00, 0x00],
            &longs(0, 1),
            PageFault::Missing { id: 5 }
        )
    );
    assert!(rt; refuses(rt.alloc(), seventeen_structs(), &longs(0, 1), deep));
}

#[test]
fn faults_of_values(rt: HostRuntime) {
    let run = PageFault::Values(EncFault::BadRun { at: 0 });
    assert!(rt; refuses(rt.alloc(), long_run(), &longs(0, 2), run));
    assert!(rt;
        refuses(
            rt.alloc(),
            without_dictionary(),
            &longs(0, 2),
            PageFault::NoDictionary
        )
    );
    assert!(rt;
        refuses(
            rt.alloc(),
            bad_text_first(),
            &texts(2),
            PageFault::BadUtf8 { at: 0 }
        )
    );
}

/// Whether a page, with another byte at a place, is refused so.
fn refuses_changed(alloc: Global, page: &[u8], at: usize, byte: u8, want: PageFault) -> bool {
    let Ok(mut changed) = page.to_vec(alloc) else {
        return false;
    };
    if let Some(place) = changed.get_mut(at) {
        *place = byte;
    }
    refuses(alloc, changed.as_slice(), &longs(0, 2), want)
}

#[test]
fn faults_of_encodings(rt: HostRuntime) {
    // Deltas, packed levels, booleans' runs in a column of numbers, a dictionary of indices, and repetition levels.
    let rows = [
        (first_form(), 10, 0x0a, 5),
        (first_form(), 12, 0x08, 4),
        (first_form(), 10, 0x06, 3),
        (with_dictionary(), 10, 0x10, 8),
        (second_form(), 18, 0x02, 3),
    ];
    for (page, at, byte, code) in rows {
        let fault = PageFault::Encoding { code };
        assert!(rt;
            refuses_changed(rt.alloc(), page, at, byte, fault),
            "code {code}"
        );
    }
}

/// A text that is said to have 16,777,217 bytes.
fn long_text() -> &'static [u8] {
    &[
        0x15, 0x00, 0x15, 0x08, 0x15, 0x08, 0x2c, 0x15, 0x02, 0x15, 0x00, 0x15, 0x06, 0x15, 0x06,
        0x00, 0x00, 1, 0, 0, 1,
    ]
}

#[test]
fn faults_inside_values(rt: HostRuntime) {
    let index = PageFault::Values(EncFault::BadIndex {
        at: 0,
        index: 1,
        size: 1,
    });
    assert!(rt; refuses_changed(rt.alloc(), with_dictionary(), 48, 1, index));
    let long = PageFault::Values(EncFault::LongCell {
        at: 0,
        length: 16_777_217,
    });
    assert!(rt; refuses(rt.alloc(), long_text(), &texts(1), long));
}

#[test]
fn faults_inside_headers(rt: HostRuntime) {
    let ty = PageFault::Thrift(ThriftFault::BadType { at: 0, ty: 13 });
    assert!(rt; refuses(rt.alloc(), &[0x1d], &longs(0, 1), ty));
    // A size of -1.
    let size = PageFault::Thrift(ThriftFault::TooWide { at: 3 });
    assert!(rt;
        refuses(
            rt.alloc(),
            &[0x15, 0x00, 0x25, 0x01, 0x00],
            &longs(0, 1),
            size
        )
    );
}
