//! Footers: one that is known, and the same with other bytes at a place.

use lake_types::{ColType, Listed, Words};
use pq_meta::{FileMeta, MetaChunk, MetaColumn, MetaFault, MetaGroup, read_meta, write_meta};
use std::alloc::{AllocError, Global};
use std::test::*;
use thrift_compact::ThriftFault;

/// The footer of a file with one group of two rows, and one column `a`, an INT64 with the field id 1.
const FOOTER: [u8; 62] = [
    0x15, 0x02, 0x19, 0x2c, 0x48, 0x06, 0x73, 0x63, 0x68, 0x65, 0x6d, 0x61, 0x15, 0x02, 0x00, 0x15,
    0x04, 0x25, 0x02, 0x18, 0x01, 0x61, 0x55, 0x02, 0x00, 0x16, 0x04, 0x19, 0x1c, 0x19, 0x1c, 0x26,
    0x08, 0x1c, 0x15, 0x04, 0x19, 0x25, 0x00, 0x06, 0x19, 0x18, 0x01, 0x61, 0x15, 0x00, 0x16, 0x04,
    0x16, 0x42, 0x16, 0x42, 0x26, 0x08, 0x00, 0x00, 0x16, 0x42, 0x16, 0x04, 0x00, 0x00,
];

/// Where the column's element begins in it, and where the bytes behind that element begin.
const ELEMENT: usize = 15;

const BEHIND: usize = 25;

const CHUNK: MetaChunk = MetaChunk {
    codec: 0,
    num_values: 2,
    first: 4,
    length: 33,
};

/// Whether it is what the footer above says.
fn is_footer(meta: &FileMeta) -> bool {
    let ([column], [group]) = (meta.columns.as_slice(), meta.groups.as_slice()) else {
        return false;
    };
    column.name.as_str() == "a"
        && column.field == Some(1)
        && column.ty == ColType::Int64
        && column.optional
        && meta.num_rows == 2
        && group.rows == 2
        && group.chunks.as_slice() == [CHUNK].as_slice()
}

#[test]
fn reads_the_footer(rt: HostRuntime) -> Result<(), Fail> {
    assert!(rt; is_footer(&read_meta(rt.alloc(), &FOOTER)?));
    // What stands behind the stop is not looked at.
    let mut longer = FOOTER.to_vec(rt.alloc())?;
    longer.push(0xff)?;
    assert!(rt; is_footer(&read_meta(rt.alloc(), longer.as_slice())?));
    Ok(())
}

#[test]
fn writes_the_footer(rt: HostRuntime) -> Result<(), Fail> {
    let alloc = rt.alloc();
    let column = MetaColumn {
        name: Words::of(alloc, "a")?,
        field: Some(1),
        ty: ColType::Int64,
        optional: true,
    };
    let chunks = Listed::from_vec(vec![in alloc; CHUNK]?);
    let group = MetaGroup { rows: 2, chunks };
    let meta = FileMeta {
        columns: Listed::from_vec(vec![in alloc; column]?),
        num_rows: 2,
        groups: Listed::from_vec(vec![in alloc; group]?),
    };
    let bytes = write_meta(alloc, &meta)?;
    assert_eq!(rt; bytes.as_slice(), &FOOTER[..]);
    Ok(())
}

/// Reads the footer with another byte at a place.
fn read_changed(alloc: Global, at: usize, byte: u8) -> Result<FileMeta, MetaFault> {
    let mut footer = FOOTER;
    if let Some(place) = footer.get_mut(at) {
        *place = byte;
    }
    read_meta(alloc, &footer)
}

/// Whether the field with this id is missing.
fn is_missing(read: Result<FileMeta, MetaFault>, field: i16) -> bool {
    matches!(read, Err(MetaFault::MissingField { id }) if id == field)
}

/// Whether this number was stated and that one found.
fn is_count(read: Result<FileMeta, MetaFault>, stated: u64, found: u64) -> bool {
    matches!(read, Err(MetaFault::Count { want, got }) if want == stated && got == found)
}

fn is_unknown_type(read: Result<FileMeta, MetaFault>, physical: i32) -> bool {
    matches!(read, Err(MetaFault::UnknownType { code }) if code == physical)
}

fn is_nested(read: Result<FileMeta, MetaFault>) -> bool {
    match read {
        Err(MetaFault::Nested { name }) => name.as_str() == "a",
        _ => false,
    }
}

fn is_thrift(read: Result<FileMeta, MetaFault>, wanted: ThriftFault) -> bool {
    matches!(read, Err(MetaFault::Thrift(fault)) if fault == wanted)
}

#[test]
fn missing_fields(rt: HostRuntime) {
    // Each byte gives a field another type, or makes a name no UTF-8.
    let rows = [
        (0, 0x16, 1),
        (2, 0x1a, 2),
        (25, 0x15, 3),
        (27, 0x1a, 4),
        (6, 0xff, 4),
        (15, 0x16, 1),
        (17, 0x26, 3),
        (21, 0xff, 4),
        (29, 0x1a, 1),
        (58, 0x15, 3),
        (33, 0x2c, 3),
        (34, 0x16, 1),
        (44, 0x16, 4),
        (46, 0x15, 5),
        (50, 0x15, 7),
        (52, 0x25, 9),
    ];
    for (at, byte, id) in rows {
        assert!(rt;
            is_missing(read_changed(rt.alloc(), at, byte), id),
            "byte {at}"
        );
    }
}

#[test]
fn counts(rt: HostRuntime) {
    // The root's children, the rows of the file, the values of the chunk, the rows of the group.
    for (at, byte, stated, found) in [(13, 4, 2, 1), (26, 6, 3, 2), (47, 6, 2, 3), (59, 6, 3, 2)] {
        assert!(rt;
            is_count(read_changed(rt.alloc(), at, byte), stated, found),
            "byte {at}"
        );
    }
}

#[test]
fn other_faults(rt: HostRuntime) {
    let alloc = rt.alloc();
    // A negative number of rows, and the bytes without their last stop.
    assert!(rt; is_thrift(read_changed(alloc, 26, 3), ThriftFault::TooWide { at: 26 }));
    assert!(rt;
        is_thrift(
            read_meta(alloc, &FOOTER[..61]),
            ThriftFault::Short { at: 61 }
        )
    );
    // A repeated column, and one with a child.
    for (at, byte) in [(18, 4), (22, 0x15)] {
        assert!(rt; is_nested(read_changed(alloc, at, byte)), "byte {at}");
    }
    // An INT96, and a map's key.
    for (at, byte, physical) in [(16, 6, 3), (22, 0x25, 2)] {
        assert!(rt;
            is_unknown_type(read_changed(alloc, at, byte), physical),
            "byte {at}"
        );
    }
}

#[test]
fn faults_of_bytes(rt: HostRuntime) {
    // Seventeen structs inside one another in a field that is not known, a field of no type, and 2^32 - 1 elements
    // of a schema in no bytes.
    let mut deep = [0x1c_u8; 17];
    deep[0] = 0x9c;
    let rows: [(&[u8], ThriftFault); 3] = [
        (&deep, ThriftFault::TooDeep { at: 17 }),
        (&[0x1d], ThriftFault::BadType { at: 0, ty: 13 }),
        (
            &[0x15, 0x02, 0x19, 0xfc, 255, 255, 255, 255, 15],
            ThriftFault::Short { at: 9 },
        ),
    ];
    for (bytes, fault) in rows {
        assert!(rt; is_thrift(read_meta(rt.alloc(), bytes), fault));
    }
}

/// The footer with its group twice, and with another number of rows.
fn read_two_groups(alloc: Global, rows: u8) -> Result<FileMeta, MetaFault> {
    let mut footer = Vec::new(alloc);
    footer.extend_from_slice(&FOOTER[..26])?;
    footer.extend_from_slice(&[2 * (rows % 8), 0x19, 0x2c])?;
    footer.extend_from_slice(&FOOTER[29..61])?;
    footer.extend_from_slice(&FOOTER[29..])?;
    read_meta(alloc, footer.as_slice())
}

#[test]
fn two_groups(rt: HostRuntime) -> Result<(), Fail> {
    let meta = read_two_groups(rt.alloc(), 4)?;
    assert!(rt; meta.num_rows == 4 && meta.groups.len() == 2);
    assert!(rt; is_count(read_two_groups(rt.alloc(), 2), 2, 4));
    Ok(())
}

/// The footer with other bytes in place of its column's element.
fn read_element(alloc: Global, element: &[u8]) -> Result<FileMeta, MetaFault> {
    let mut footer = Vec::new(alloc);
    footer.extend_from_slice(&FOOTER[..ELEMENT])?;
    footer.extend_from_slice(element)?;
    footer.extend_from_slice(&FOOTER[BEHIND..])?;
    read_meta(alloc, footer.as_slice())
}

/// Whether a column with this physical type, whose element has these fields behind its name, is of a type; of none, if it
/// is refused.
fn is_type(alloc: Global, physical: u8, fields: &[u8], ty: Option<ColType>) -> bool {
    let Ok(element) = element_of(alloc, physical, fields) else {
        return false;
    };
    match read_element(alloc, element.as_slice()) {
        Ok(meta) => meta.columns.as_slice().first().map(|column| column.ty) == ty,
        Err(MetaFault::UnknownType { code }) => code == i32::from(physical) && ty.is_none(),
        Err(_) => false,
    }
}

fn element_of(alloc: Global, physical: u8, fields: &[u8]) -> Result<Vec<u8>, AllocError> {
    let mut element = Vec::new(alloc);
    element.extend_from_slice(&[0x15, 2 * (physical % 8), 0x25, 2, 0x18, 1, 0x61])?;
    element.extend_from_slice(fields)?;
    Ok(element)
}

#[test]
fn types_without_logical_types(rt: HostRuntime) {
    let rows: [(u8, &[u8], Option<ColType>); 5] = [
        (1, &[0], Some(ColType::Int32)),
        (6, &[0], Some(ColType::Blob)),
        (0, &[0x25, 0, 0], Some(ColType::Bool)),
        (2, &[0x25, 36, 0], Some(ColType::Int64)),
        (6, &[0x25, 0, 0], Some(ColType::Varchar)),
    ];
    for (physical, fields, ty) in rows {
        assert!(rt; is_type(rt.alloc(), physical, fields, ty));
    }
}

#[test]
fn types_of_int32(rt: HostRuntime) {
    let rows = [
        (12, Some(ColType::Date)),
        (30, Some(ColType::Int8)),
        (32, Some(ColType::Int16)),
        (34, Some(ColType::Int32)),
        (36, None),
    ];
    for (converted, ty) in rows {
        assert!(rt;
            is_type(rt.alloc(), 1, &[0x25, converted, 0], ty),
            "{converted}"
        );
    }
}

#[test]
fn logical_types(rt: HostRuntime) {
    // A STRING, none, a DATE behind a STRING, and one that is not known behind a STRING.
    let rows: [(u8, &[u8], Option<ColType>); 4] = [
        (6, &[0x6c, 0x1c, 0, 0, 0], Some(ColType::Varchar)),
        (6, &[0x6c, 0, 0], None),
        (1, &[0x6c, 0x1c, 0, 0x5c, 0, 0, 0], Some(ColType::Date)),
        (6, &[0x6c, 0x1c, 0, 0x2c, 0, 0, 0], None),
    ];
    for (physical, fields, ty) in rows {
        assert!(rt; is_type(rt.alloc(), physical, fields, ty));
    }
}

#[test]
fn logical_integers(rt: HostRuntime) {
    // Of 8 signed bits, unsigned, without a sign, without a width; each beside the converted type INT_16.
    let rows: [(&[u8], Option<ColType>); 4] = [
        (
            &[0x25, 32, 0x4c, 0xac, 0x13, 8, 0x11, 0, 0, 0],
            Some(ColType::Int8),
        ),
        (&[0x25, 32, 0x4c, 0xac, 0x13, 8, 0x12, 0, 0, 0], None),
        (&[0x25, 32, 0x4c, 0xac, 0x13, 8, 0, 0, 0], None),
        (&[0x25, 32, 0x4c, 0xac, 0x21, 0, 0, 0], None),
    ];
    for (fields, ty) in rows {
        assert!(rt; is_type(rt.alloc(), 1, fields, ty));
    }
}

/// A footer of two columns and no rows. Both columns have the field id 1.
const TWO_COLUMNS: [u8; 41] = [
    0x15, 0x02, 0x19, 0x3c, 0x48, 0x06, 0x73, 0x63, 0x68, 0x65, 0x6d, 0x61, 0x15, 0x04, 0x00, 0x15,
    0x04, 0x25, 0x02, 0x18, 0x01, 0x61, 0x55, 0x02, 0x00, 0x15, 0x04, 0x25, 0x02, 0x18, 0x01, 0x62,
    0x55, 0x02, 0x00, 0x16, 0x00, 0x19, 0x0c, 0x00, 0x00,
];

/// Whether its first column has the field id 1 and its second this one, with another byte in place of the second one's.
fn is_second_field(alloc: Global, byte: u8, field: Option<u32>) -> bool {
    let mut footer = TWO_COLUMNS;
    footer[33] = byte;
    let Ok(meta) = read_meta(alloc, &footer) else {
        return false;
    };
    match meta.columns.as_slice() {
        [a, b] => a.field == Some(1) && b.field == field,
        _ => false,
    }
}

#[test]
fn field_ids(rt: HostRuntime) {
    for (byte, field) in [(2, None), (4, Some(2)), (1, None)] {
        assert!(rt; is_second_field(rt.alloc(), byte, field), "{byte}");
    }
}
