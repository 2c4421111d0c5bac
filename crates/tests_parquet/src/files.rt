//! A file of 107 bytes, all its prefixes, and the same with other bytes at a place.

use lake_types::{ColType, Sheet, Value};
use pq_file::{FileFault, read_columns, read_file};
use pq_meta::MetaFault;
use pq_pages::PageFault;
use std::alloc::Global;
use std::test::*;

/// A file of one column `a`, an INT64 with the field id 1, and of two rows, 7 and NULL.
pub const FILE: [u8; 107] = [
    0x50, 0x41, 0x52, 0x31, 0x15, 0x00, 0x15, 0x20, 0x15, 0x20, 0x2c, 0x15, 0x04, 0x15, 0x00, 0x15,
    0x06, 0x15, 0x06, 0x00, 0x00, 0x04, 0x00, 0x00, 0x00, 0x02, 0x01, 0x02, 0x00, 0x07, 0x00, 0x00,
    0x00, 0x00, 0x00, 0x00, 0x00, 0x15, 0x02, 0x19, 0x2c, 0x48, 0x06, 0x73, 0x63, 0x68, 0x65, 0x6d,
    0x61, 0x15, 0x02, 0x00, 0x15, 0x04, 0x25, 0x02, 0x18, 0x01, 0x61, 0x55, 0x02, 0x00, 0x16, 0x04,
    0x19, 0x1c, 0x19, 0x1c, 0x26, 0x08, 0x1c, 0x15, 0x04, 0x19, 0x25, 0x00, 0x06, 0x19, 0x18, 0x01,
    0x61, 0x15, 0x00, 0x16, 0x04, 0x16, 0x42, 0x16, 0x42, 0x26, 0x08, 0x00, 0x00, 0x16, 0x42, 0x16,
    0x04, 0x00, 0x00, 0x3e, 0x00, 0x00, 0x00, 0x50, 0x41, 0x52, 0x31,
];

/// Whether it is what the file above holds.
fn is_whole(sheet: &Sheet) -> bool {
    let [column] = sheet.columns.as_slice() else {
        return false;
    };
    sheet.rows == 2
        && column.name.as_str() == "a"
        && column.field == Some(1)
        && column.ty == ColType::Int64
        && column.optional
        && matches!(column.cells.as_slice(), [Value::Int(7), Value::Null])
}

#[test]
fn reads_the_file(rt: HostRuntime) -> Result<(), Fail> {
    assert!(rt; is_whole(&read_file(rt.alloc(), &FILE)?));
    assert!(rt; is_whole(&read_columns(rt.alloc(), &FILE, &[2, 1])?));
    Ok(())
}

#[test]
fn prefixes_are_refused(rt: HostRuntime) {
    for length in 0..107 {
        let read = read_file(rt.alloc(), &FILE[..length]);
        assert!(rt; matches!(read, Err(FileFault::Magic)), "{length} bytes");
    }
}

/// The file with another byte at a place.
fn changed(at: usize, byte: u8) -> [u8; 107] {
    let mut file = FILE;
    if let Some(place) = file.get_mut(at) {
        *place = byte;
    }
    file
}

fn read_changed(alloc: Global, at: usize, byte: u8) -> Result<Sheet, FileFault> {
    read_file(alloc, &changed(at, byte))
}

fn is_nested(read: &Result<Sheet, FileFault>) -> bool {
    match read {
        Err(FileFault::Meta(MetaFault::Nested { name })) => name.as_str() == "a",
        _ => false,
    }
}

fn is_compressed(read: &Result<Sheet, FileFault>) -> bool {
    match read {
        Err(
            FileFault::Chunk {
                group: 0,
                column: 0,
                fault,
            },
        ) => *fault == PageFault::Compressed { codec: 1 },
        _ => false,
    }
}

#[test]
fn changed_footers(rt: HostRuntime) {
    let alloc = rt.alloc();
    let unknown = read_changed(alloc, 53, 6);
    assert!(rt;
        matches!(
            unknown,
            Err(FileFault::Meta(MetaFault::UnknownType { code: 3 }))
        )
    );
    assert!(rt; is_nested(&read_changed(alloc, 55, 4)));
    let rows = read_changed(alloc, 63, 6);
    assert!(rt;
        matches!(
            rows,
            Err(FileFault::Meta(MetaFault::Count { want: 3, got: 2 }))
        )
    );
}

#[test]
fn changed_frames(rt: HostRuntime) {
    let alloc = rt.alloc();
    assert!(rt;
        matches!(
            read_changed(alloc, 99, 96),
            Err(FileFault::Footer { length: 96 })
        )
    );
    assert!(rt; matches!(read_changed(alloc, 103, 0x51), Err(FileFault::Magic)));
    assert!(rt; matches!(read_changed(alloc, 3, 0x51), Err(FileFault::Magic)));
}

#[test]
fn a_damaged_chunk_is_a_fault_where_it_is_read(rt: HostRuntime) -> Result<(), Fail> {
    let alloc = rt.alloc();
    let file = changed(82, 2);
    assert!(rt; is_compressed(&read_file(alloc, &file)));
    assert!(rt; is_compressed(&read_columns(alloc, &file, &[1])));
    let sheet = read_columns(alloc, &file, &[2])?;
    assert!(rt; sheet.columns.is_empty() && sheet.rows == 2);
    Ok(())
}

#[test]
fn a_chunk_past_the_end(rt: HostRuntime) {
    // A chunk of 63 bytes from byte 63 on.
    let mut file = changed(88, 0x7e);
    file[90] = 0x7e;
    let read = read_file(rt.alloc(), &file);
    assert!(rt;
        matches!(
            read,
            Err(FileFault::Span {
                group: 0,
                column: 0
            })
        )
    );
}

#[test]
fn a_number_out_of_range(rt: HostRuntime) {
    // A column of INT_8 in INT32, whose first cell is 263.
    let mut file = changed(53, 2);
    file[59] = 0x25;
    file[60] = 0x1e;
    file[30] = 1;
    let read = read_file(rt.alloc(), &file);
    assert!(rt; matches!(read, Err(FileFault::BadCell { column: 0, row: 0 })));
}

/// A file of no columns, and of one group of 4,194,305 rows.
const MANY_ROWS: [u8; 35] = [
    0x50, 0x41, 0x52, 0x31, 0x15, 0x02, 0x19, 0x1c, 0x48, 0x00, 0x00, 0x16, 0x82, 0x80, 0x80, 0x04,
    0x19, 0x1c, 0x19, 0x0c, 0x26, 0x82, 0x80, 0x80, 0x04, 0x00, 0x00, 0x17, 0x00, 0x00, 0x00, 0x50,
    0x41, 0x52, 0x31,
];

#[test]
fn too_many_rows(rt: HostRuntime) {
    let read = read_file(rt.alloc(), &MANY_ROWS);
    assert!(rt; matches!(read, Err(FileFault::TooManyRows { rows: 4_194_305 })));
}

#[test]
fn changes_of_one_byte_are_answered(rt: HostRuntime) {
    let alloc = rt.alloc();
    for at in 0..107 {
        for byte in [0, 1, 127, 255] {
            let _read = read_changed(alloc, at, byte);
        }
    }
}
