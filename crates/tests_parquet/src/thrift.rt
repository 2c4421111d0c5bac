//! The compact protocol.

use std::alloc::{AllocError, Global};
use std::test::Fail;
use thrift_compact::ThriftFault::{BadType, Short, TooDeep, TooWide};
use thrift_compact::types::{
    BINARY, BYTE, DOUBLE, FALSE, I16, I32, I64, LIST, MAP, SET, STRUCT, TRUE,
};
use thrift_compact::{Reader, ThriftFault, Writer};

/// A Parquet page header: of a data page of 16 bytes with two values.
const PAGE_HEADER: [u8; 17] = [
    0x15, 0x00, 0x15, 0x20, 0x15, 0x20, 0x2c, 0x15, 0x04, 0x15, 0x00, 0x15, 0x06, 0x15, 0x06, 0x00,
    0x00,
];

/// The numbers of the header before its last field, which is a struct, each with its id.
const PAGE_FIELDS: [(i16, i32); 3] = [(1, 0), (2, 16), (3, 16)];

/// The numbers of that struct, each with its id.
const DATA_PAGE_FIELDS: [(i16, i32); 4] = [(1, 2), (2, 0), (3, 3), (4, 3)];

/// The types in the order of their numbers, which begin at 1.
const TYPES: [u8; 12] = [
    TRUE, FALSE, BYTE, I16, I32, I64, DOUBLE, BINARY, LIST, SET, MAP, STRUCT,
];

/// Whether these numbers come next, each with its id.
fn reads_numbers(reader: &mut Reader, fields: &[(i16, i32)]) -> bool {
    let mut last = 0;
    for &(id, number) in fields {
        if reader.read_header(last) != Ok(Some((id, I32))) || reader.read_i32() != Ok(number) {
            return false;
        }
        last = id;
    }
    true
}

fn reads_page_header(reader: &mut Reader) -> bool {
    reads_numbers(reader, &PAGE_FIELDS)
        && reader.read_header(3) == Ok(Some((5, STRUCT)))
        && reads_numbers(reader, &DATA_PAGE_FIELDS)
        && reader.read_header(4) == Ok(None)
        && reader.read_header(5) == Ok(None)
        && reader.read_header(5) == Err(Short { at: 17 })
}

fn put_numbers(writer: &mut Writer, fields: &[(i16, i32)]) -> Result<(), AllocError> {
    let mut last = 0;
    for &(id, number) in fields {
        if last < id {
            writer.put_header(last, id, I32)?;
            writer.put_i64(i64::from(number))?;
            last = id;
        }
    }
    Ok(())
}

fn page_header(alloc: Global) -> Result<Vec<u8>, AllocError> {
    let mut writer = Writer::new(alloc);
    put_numbers(&mut writer, &PAGE_FIELDS)?;
    writer.put_header(3, 5, STRUCT)?;
    put_numbers(&mut writer, &DATA_PAGE_FIELDS)?;
    writer.put_stop()?;
    writer.put_stop()?;
    Ok(writer.finish())
}

#[test]
fn a_page_header(rt: HostRuntime) -> Result<(), Fail> {
    assert_eq!(rt; TYPES, [1, 2, 3, 4, 5, 6, 7, 8, 9, 10, 11, 12]);
    assert!(rt; reads_page_header(&mut Reader::new(&PAGE_HEADER)));
    assert!(rt; page_header(rt.alloc())?.as_slice() == PAGE_HEADER.as_slice());
    Ok(())
}

/// Skips a value, and gives the offset behind it.
fn skipped(bytes: &[u8], ty: u8) -> Result<u64, ThriftFault> {
    let mut reader = Reader::new(bytes);
    match reader.skip(ty) {
        Ok(()) => Ok(reader.at()),
        Err(fault) => Err(fault),
    }
}

#[test]
fn values_that_are_passed_over(rt: HostRuntime) {
    let rows: [(&[u8], u8, u64); 6] = [
        (&PAGE_HEADER, STRUCT, 17),
        // Booleans take a byte in a list and none in a field. An empty map has no types.
        (&[0x21, 1, 2], LIST, 3),
        (&[0x11, 0x12, 0x00], STRUCT, 3),
        (&[0x00, 0xff], MAP, 1),
        (&[0x02, 0x81, 1, 0x7a, 1, 0, 2], MAP, 7),
        // A number in ten bytes.
        (&[128, 128, 128, 128, 128, 128, 128, 128, 128, 0], I64, 10),
    ];
    for (bytes, ty, end) in rows {
        assert!(rt; skipped(bytes, ty) == Ok(end), "{bytes:?}");
    }
}

#[test]
fn values_that_are_refused(rt: HostRuntime) {
    let rows: [(&[u8], u8, ThriftFault); 12] = [
        // 2^32 - 1 numbers and booleans over two bytes, and lengths past the bytes.
        (&[0xf5, 255, 255, 255, 255, 15, 1, 2], LIST, Short { at: 8 }),
        (&[0xf1, 255, 255, 255, 255, 15, 1, 2], LIST, Short { at: 8 }),
        (&[0x05, 1, 2], BINARY, Short { at: 0 }),
        (&[1, 2, 3, 4, 5, 6, 7], DOUBLE, Short { at: 0 }),
        (&[128, 128, 128, 128, 16], BINARY, TooWide { at: 0 }),
        // Bad types: of elements, of keys, of a step, of a field and of the value itself.
        (&[0x00], LIST, BadType { at: 0, ty: 0 }),
        (&[0x01, 0xd5], MAP, BadType { at: 0, ty: 13 }),
        (&[0x11, 0x10], STRUCT, BadType { at: 1, ty: 0 }),
        (&[], 13, BadType { at: 0, ty: 13 }),
        // A number in eleven bytes, one past 16 bits, and a field id past 16 bits.
        (
            &[128, 128, 128, 128, 128, 128, 128, 128, 128, 128, 0],
            I64,
            TooWide { at: 0 },
        ),
        (&[128, 128, 4], I16, TooWide { at: 0 }),
        (&[0x05, 254, 255, 3, 0x00, 0x15], STRUCT, TooWide { at: 5 }),
    ];
    for (bytes, ty, fault) in rows {
        assert!(rt; skipped(bytes, ty) == Err(fault), "{bytes:?}");
    }
}

#[test]
fn values_inside_one_another(rt: HostRuntime) {
    let mut nested = [0x1c_u8; 31];
    assert!(rt; skipped(&nested, STRUCT) == Err(TooDeep { at: 16 }));
    assert!(rt; skipped(&nested[..15], STRUCT) == Err(Short { at: 15 }));
    for stop in &mut nested[15..] {
        *stop = 0;
    }
    assert!(rt; skipped(&nested, STRUCT) == Ok(31));
}

/// Headers near and far, both ends of the numbers, lists of 14 and 15, a text, and one byte more.
const ITEMS: [u8; 22] = [
    0xf3, 0x08, 0x3e, 0x19, 0x03, 0xff, 0xff, 0xff, 0xff, 0xff, 0xff, 0xff, 0xff, 0xff, 0x01, 0xe5,
    0xf5, 0x0f, 0x02, b'a', b'b', 0,
];

fn items(alloc: Global) -> Result<Vec<u8>, AllocError> {
    let mut writer = Writer::new(alloc);
    writer.put_header(0, 15, BYTE)?;
    writer.put_header(15, 31, BINARY)?;
    writer.put_header(-1, 0, LIST)?;
    writer.put_i64(-2)?;
    writer.put_i64(i64::MIN)?;
    writer.put_list(I32, 14)?;
    writer.put_list(I32, 15)?;
    writer.put_binary(b"ab")?;
    Ok(writer.finish())
}

fn reads_items(reader: &mut Reader) -> bool {
    reader.read_header(0) == Ok(Some((15, BYTE)))
        && reader.read_header(15) == Ok(Some((31, BINARY)))
        && reader.read_header(-1) == Ok(Some((0, LIST)))
        && reader.read_u32() == Err(TooWide { at: 4 })
        && reader.read_u64() == Err(TooWide { at: 4 })
        && reader.read_i64() == Ok(-2)
        && reader.read_i32() == Err(TooWide { at: 5 })
        && reader.read_i64() == Ok(i64::MIN)
        && reader.is_list_of(I32)
}

fn reads_lists(reader: &mut Reader) -> bool {
    !reader.is_list_of(I64)
        && reader.read_list() == Ok((I32, 14))
        && reader.read_list() == Ok((I32, 15))
        && reader.read_binary() == Ok(&b"ab"[..])
        && reader.at() == 21
        && reader.left() == 1
        && reader.read_byte() == Ok(0)
        && reader.read_byte() == Err(Short { at: 22 })
}

#[test]
fn items_both_ways(rt: HostRuntime) -> Result<(), Fail> {
    assert!(rt; items(rt.alloc())?.as_slice() == &ITEMS[..21]);
    let mut reader = Reader::new(&ITEMS);
    assert!(rt; reads_items(&mut reader) && reads_lists(&mut reader));
    let mut counts = Reader::new(&[0x04, 0x06]);
    assert!(rt; counts.read_u32() == Ok(2) && counts.read_u64() == Ok(3));
    Ok(())
}
