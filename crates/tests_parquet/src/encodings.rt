//! Bytes of the public format's examples and by hand, and each fault once with its place.

use pq_encodings::{
    ByteLists, EncFault, Physical, decode_indices, decode_levels, decode_plain, encode_levels,
    encode_plain, indices_before_fault, strings_before_fault,
};
use std::alloc::Global;
use std::test::Fail;

/// The levels, or the first fault. A width past 32 is none.
fn levels(alloc: Global, bytes: &[u8], width: u8, count: u64) -> Result<Vec<u32>, EncFault> {
    if width > 32 {
        return Err(EncFault::BadRun { at: 0 });
    }
    decode_levels(alloc, bytes, width, count)
}

fn has_levels(alloc: Global, bytes: &[u8], width: u8, want: &[u32]) -> bool {
    match levels(alloc, bytes, width, want.len() as u64) {
        Ok(found) => found.as_slice() == want,
        Err(_) => false,
    }
}

#[test]
fn runs_of_each_width(rt: HostRuntime) {
    let table: [(&[u8], u8, &[u32]); 13] = [
        // one value and one NULL, each a run
        (&[0x02, 0x01, 0x02, 0x00], 1, &[1, 0]),
        // the example of the public format: 0 to 7 in three bits each
        (&[0x03, 0x88, 0xc6, 0xfa], 3, &[0, 1, 2, 3, 4, 5, 6, 7]),
        // packed numbers of no bits, and a repeated one
        (&[0x03], 0, &[0, 0, 0, 0, 0, 0, 0, 0]),
        (&[0x06], 0, &[0, 0, 0]),
        // values past the count are ignored, and so are bytes past the run
        (&[0x03, 0b0000_1101, 0xff], 1, &[1, 0, 1]),
        (
            &[0x03, 1, 2, 3, 4, 5, 6, 7, 8],
            8,
            &[1, 2, 3, 4, 5, 6, 7, 8],
        ),
        (
            &[0x03, 1, 48, 18, 255, 15, 0, 0, 248, 127, 188, 90, 0],
            12,
            &[1, 0x123, 0xfff, 0, 0x800, 0x7ff, 0xabc, 5],
        ),
        (
            &[
                0x03, 1, 0, 0, 128, 255, 255, 255, 63, 0, 0, 0, 0, 0, 0, 0, 56, 0, 0, 0, 40, 0, 0,
                0, 28, 0, 0, 0, 18, 0, 0, 0,
            ],
            31,
            &[1, 0x7fff_ffff, 0, 0x4000_0000, 3, 5, 7, 9],
        ),
        (
            &[
                0x03, 1, 0, 0, 0, 255, 255, 255, 255, 0, 0, 0, 0, 0, 0, 0, 128, 3, 0, 0, 0, 5, 0,
                0, 0, 7, 0, 0, 0, 9, 0, 0, 0,
            ],
            32,
            &[1, 0xffff_ffff, 0, 0x8000_0000, 3, 5, 7, 9],
        ),
        // a repeated value of two bytes, and one past its width
        (&[0x04, 0x34, 0x01], 9, &[0x134, 0x134]),
        (&[0x04, 0x07], 1, &[7, 7]),
        // a header that isn't the shortest, and no header at all
        (&[0x84, 0x80, 0x00, 0x01], 1, &[1, 1]),
        (&[], 1, &[]),
    ];
    for (bytes, width, want) in table {
        assert!(rt; has_levels(rt.alloc(), bytes, width, want), "width {width}");
    }
}

#[test]
fn first_fault_of_runs(rt: HostRuntime) {
    let huge = &[0xfe, 0xff, 0xff, 0xff, 0xff, 0xff, 0xff, 0xff, 0x7f, 0x01];
    let table: [(&[u8], u8, EncFault); 13] = [
        (&[], 1, EncFault::Short { at: 0 }),
        (&[0x02, 0x01], 1, EncFault::Short { at: 2 }),
        (&[0x02, 0x01, 0x82], 1, EncFault::Short { at: 2 }),
        (&[0x02, 0x01, 0x02], 1, EncFault::Short { at: 2 }),
        (&[0x04, 0x34], 9, EncFault::Short { at: 0 }),
        // the wanted values stand before the end of the bytes
        (&[0x03, 1, 2, 3], 8, EncFault::Short { at: 0 }),
        // 2 ^ 62 values are promised
        (
            &[
                0x83, 0x80, 0x80, 0x80, 0x80, 0x80, 0x80, 0x80, 0x80, 0x01, 0x01,
            ],
            1,
            EncFault::Short { at: 0 },
        ),
        (huge, 1, EncFault::BadRun { at: 0 }),
        (&[0x00, 0x01], 1, EncFault::BadRun { at: 0 }),
        (&[0x02, 0x01, 0x01], 1, EncFault::BadRun { at: 2 }),
        // a repeated run past the count, whose value is missing too
        (&[0x06], 1, EncFault::BadRun { at: 0 }),
        // ten bytes that all say that more follow, and a header of 2 ^ 64
        (&[0x80; 10], 1, EncFault::BadRun { at: 0 }),
        (
            &[0x80, 0x80, 0x80, 0x80, 0x80, 0x80, 0x80, 0x80, 0x80, 0x02],
            1,
            EncFault::BadRun { at: 0 },
        ),
    ];
    for (bytes, width, want) in table {
        let read = levels(rt.alloc(), bytes, width, 2);
        assert!(rt; read.err() == Some(want), "in {bytes:?}");
    }
}

#[test]
fn indices_below_the_size(rt: HostRuntime) -> Result<(), Fail> {
    let found = decode_indices(rt.alloc(), &[0x01, 0x02, 0x00], 1, 1)?;
    assert_eq!(rt; found.as_slice(), [0].as_slice());
    let none = decode_indices(rt.alloc(), &[33], 0, 0)?;
    assert!(rt; none.is_empty());
    let table: [(&[u8], EncFault); 4] = [
        (&[], EncFault::Short { at: 0 }),
        (&[33], EncFault::BadRun { at: 0 }),
        (&[0x08, 0x02, 0x00, 0x02], EncFault::Short { at: 3 }),
        // a bad index goes before the fault of a later run
        (
            &[0x08, 0x02, 0x05, 0x02],
            EncFault::BadIndex {
                at: 0,
                index: 5,
                size: 5,
            },
        ),
    ];
    for (bytes, want) in table {
        let read = decode_indices(rt.alloc(), bytes, 2, 5);
        assert!(rt; read.err() == Some(want), "in {bytes:?}");
    }
    Ok(())
}

#[test]
fn what_stands_before_a_fault(rt: HostRuntime) -> Result<(), Fail> {
    let indices = indices_before_fault(rt.alloc(), &[0x08, 0x02, 0x03, 0x02, 0x05], 2, 5)?;
    assert!(rt; indices.as_slice() == [3].as_slice());
    let strings = strings_before_fault(rt.alloc(), &[1, 0, 0, 0, 97, 9, 0, 0, 0], 2)?;
    assert!(rt; strings.as_slice().len() == 1);
    Ok(())
}

#[test]
fn levels_are_written_as_longest_runs(rt: HostRuntime) -> Result<(), Fail> {
    let bytes = encode_levels(rt.alloc(), &[true, false])?;
    assert_eq!(rt; bytes.as_slice(), [0x02, 0x01, 0x02, 0x00].as_slice());
    let bytes = encode_levels(rt.alloc(), &[true; 100])?;
    assert_eq!(rt; bytes.as_slice(), [0xc8, 0x01, 0x01].as_slice());
    Ok(())
}

#[test]
fn plain_values_both_ways(rt: HostRuntime) -> Result<(), Fail> {
    let table: [(Physical, u64, &[u8], &str); 5] = [
        (
            Physical::Boolean,
            9,
            &[0b0000_0101, 0x01],
            "Bools([true, false, true, false, false, false, false, false, true])",
        ),
        (
            Physical::Int32,
            2,
            &[7, 0, 0, 0, 0xfe, 0xff, 0xff, 0xff],
            "I32s([7, -2])",
        ),
        (Physical::Int64, 1, &[7, 0, 0, 0, 0, 0, 0, 0], "I64s([7])"),
        (
            Physical::ByteArray,
            2,
            &[2, 0, 0, 0, 97, 98, 0, 0, 0, 0],
            "Strings(ByteLists { lists: [[97, 98], []] })",
        ),
        (
            Physical::ByteArray,
            0,
            &[],
            "Strings(ByteLists { lists: [] })",
        ),
    ];
    for (kind, count, bytes, want) in table {
        let values = decode_plain(rt.alloc(), kind, count, bytes)?;
        let again = encode_plain(rt.alloc(), &values)?;
        assert!(rt; again.as_slice() == bytes, "of {kind:?}");
        let shown = format!(in rt.alloc(); "{values:?}")?;
        assert!(rt; shown.as_str() == want);
    }
    Ok(())
}

#[test]
fn first_fault_of_plain_values(rt: HostRuntime) {
    let table: [(Physical, u64, &[u8], EncFault); 6] = [
        (Physical::Boolean, 17, &[0, 0], EncFault::Short { at: 2 }),
        (
            Physical::Int32,
            2,
            &[7, 0, 0, 0, 1],
            EncFault::Short { at: 4 },
        ),
        (Physical::Int64, 1, &[7, 0, 0, 0], EncFault::Short { at: 0 }),
        (
            Physical::ByteArray,
            2,
            &[0, 0, 0, 0, 1, 0, 0, 0],
            EncFault::Short { at: 4 },
        ),
        (
            Physical::ByteArray,
            1,
            &[1, 0, 0],
            EncFault::Short { at: 0 },
        ),
        // too long goes before too short
        (
            Physical::ByteArray,
            1,
            &[1, 0, 0, 1],
            EncFault::LongCell {
                at: 0,
                length: 16_777_217,
            },
        ),
    ];
    for (kind, count, bytes, want) in table {
        let read = decode_plain(rt.alloc(), kind, count, bytes);
        assert!(rt; read.err() == Some(want), "in {bytes:?}");
    }
}

#[test]
fn byte_lists_keep_their_vec(rt: HostRuntime) -> Result<(), Fail> {
    let mut lists = Vec::new(rt.alloc());
    lists.push(Vec::from_slice(rt.alloc(), b"ab")?)?;
    let lists = ByteLists::from_vec(lists).into_vec();
    assert_eq!(rt; lists.len(), 1);
    assert_eq!(rt; lists[0].as_slice(), b"ab".as_slice());
    Ok(())
}
