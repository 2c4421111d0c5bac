//! The headers of lists, sets, maps and fields, read from the front of a slice.
//!
//! Each function takes the offset `at` of the header's first byte, which its faults name, and
//! returns what it read with the bytes behind it.

ghost use Rattle.std.specs.Prelude.{◌≡◌, ◌<◌, ◌≤◌, length, IfOk};
ghost use Rattle.thrift_compact.specs.Spelling.{high_bits, low_bits};
ghost use Rattle.thrift_compact.specs.Reading.{is_type, list_header_in, field_header_in, entry_types_in, map_header_in};
ghost use Rattle.thrift_compact.specs.Parsing.{Parses};

use crate::fault::ThriftFault;
use crate::scalars::{parse_i16, parse_unsigned};
use crate::types;

/// One past the largest field id.
const FIELD_ID_LIMIT: i32 = 32_768;

fn high_bits(b: u8) -> u8
    ensures { result ≡ high_bits b }
{
    b / 16
}

pub fn low_bits(b: u8) -> u8
    ensures { result ≡ low_bits b }
{
    b % 16
}

fn is_type(ty: u8) -> bool
    ensures { result ≡ is_type ty }
{
    0 < ty && ty <= types::STRUCT
}

/// The element type and the size of a list or a set.
#[tactic(auto, unfolding(crate::specs::Reading::list_header_in))]
pub fn parse_list_header(at: u64, bytes: &[u8]) -> Result<((u8, u32), &[u8]), ThriftFault>
    ensures exact { Parses result (list_header_in at bytes.now) }
    ensures shorter { IfOk result (λ x. length x.1.now < length bytes.now) }
{
    let [b, rest @ ..] = bytes else {
        return Err(ThriftFault::Short { at });
    };
    let ty = low_bits(*b);
    if !is_type(ty) {
        return Err(ThriftFault::BadType { at, ty });
    }
    let size = high_bits(*b);
    if size < 15 {
        return Ok(((ty, u32::from(size)), rest));
    }
    let (size, rest) = parse_unsigned(at, 1 << 32, rest)?;
    Ok(((ty, size as u32), rest))
}

/// The id and the type of the field behind the field `last`, or none at a struct's stop.
#[tactic(auto, unfolding(crate::specs::Reading::field_header_in))]
pub fn parse_field_header(
    at: u64,
    last: i16,
    bytes: &[u8],
) -> Result<(Option<(i16, u8)>, &[u8]), ThriftFault>
    ensures exact { Parses result (field_header_in at last bytes.now) }
    ensures shorter { IfOk result (λ x. length x.1.now < length bytes.now) }
{
    let [b, rest @ ..] = bytes else {
        return Err(ThriftFault::Short { at });
    };
    if *b == 0 {
        return Ok((None, rest));
    }
    let ty = low_bits(*b);
    if !is_type(ty) {
        return Err(ThriftFault::BadType { at, ty });
    }
    let step = high_bits(*b);
    if step == 0 {
        let (id, rest) = parse_i16(at, rest)?;
        return Ok((Some((id, ty)), rest));
    }
    let id = i32::from(last) + i32::from(step);
    if id < FIELD_ID_LIMIT {
        Ok((Some((id as i16, ty)), rest))
    } else {
        Err(ThriftFault::TooWide { at })
    }
}

/// The types of keys and values, and the `size` of their map.
#[tactic(auto, unfolding(crate::specs::Reading::entry_types_in))]
fn parse_entry_types(
    at: u64,
    size: u32,
    bytes: &[u8],
) -> Result<((u8, u8, u32), &[u8]), ThriftFault>
    ensures exact { Parses result (entry_types_in at size bytes.now) }
    ensures shorter { IfOk result (λ x. length x.1.now ≤ length bytes.now) }
{
    let [b, rest @ ..] = bytes else {
        return Err(ThriftFault::Short { at });
    };
    let key = high_bits(*b);
    if !is_type(key) {
        return Err(ThriftFault::BadType { at, ty: key });
    }
    let value = low_bits(*b);
    if !is_type(value) {
        return Err(ThriftFault::BadType { at, ty: value });
    }
    Ok(((key, value, size), rest))
}

/// The types of a map's keys and values, and its size. An empty map has no types, and they are
/// given as 0.
#[tactic(auto, unfolding(crate::specs::Reading::map_header_in))]
pub fn parse_map_header(at: u64, bytes: &[u8]) -> Result<((u8, u8, u32), &[u8]), ThriftFault>
    ensures exact { Parses result (map_header_in at bytes.now) }
    ensures shorter { IfOk result (λ x. length x.1.now < length bytes.now) }
{
    let (size, rest) = parse_unsigned(at, 1 << 32, bytes)?;
    if size == 0 {
        return Ok(((0, 0, 0), rest));
    }
    parse_entry_types(at, size as u32, rest)
}
