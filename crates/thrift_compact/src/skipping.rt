//! Values passed over, whatever they hold.
//!
//! `end` is the offset at which all bytes end, so that each item's own offset is known. The
//! recursion goes at most `depth` lists, sets, maps and structs deep. A loop over elements or
//! entries takes no more turns than there are bytes, whatever size its header states: each turn
//! passes a byte at least, as the clauses `shorter` and `progress` say, or ends the loop.

ghost use Rattle.std.specs.Prelude.{◌≡◌, ◌≢◌, ◌+◌, ◌<◌, ◌≤◌, length, IfOk, pos};
ghost use Rattle.thrift_compact.specs.declared.types.TheConstants.{TRUE, FALSE};
ghost use Rattle.thrift_compact.specs.Reading.{start_of, is_flag, is_nested, after_plain, after_each, after_element, after_entry, after_fields, after_nested, after_value};
ghost use Rattle.thrift_compact.specs.Parsing.{Leaves};

use crate::fault::ThriftFault;
use crate::headers::{parse_field_header, parse_list_header, parse_map_header};
use crate::scalars::{parse_binary, parse_bytes, parse_i16, parse_i32, parse_i64, start_of};
use crate::types;

fn is_flag(ty: u8) -> bool
    ensures { result ≡ is_flag ty }
{
    ty == types::TRUE || ty == types::FALSE
}

fn is_nested(ty: u8) -> bool
    ensures { result ≡ is_nested ty }
{
    types::LIST <= ty && ty <= types::STRUCT
}

/// Passes over a value with no other inside it. A boolean field takes no bytes, since its type is
/// its value.
#[tactic(auto, unfolding(crate::specs::Reading::after_plain))]
fn skip_plain(at: u64, ty: u8, bytes: &[u8]) -> Result<&[u8], ThriftFault>
    ensures exact { Leaves result (after_plain at ty bytes.now) }
    ensures shorter { IfOk result (λ x. length x.now ≤ length bytes.now) }
    ensures progress { ty ≢ TRUE → ty ≢ FALSE → IfOk result (λ x. length x.now < length bytes.now) }
{
    match ty {
        types::TRUE | types::FALSE => Ok(bytes),
        types::BYTE => Ok(parse_bytes(at, 1, bytes)?.1),
        types::I16 => Ok(parse_i16(at, bytes)?.1),
        types::I32 => Ok(parse_i32(at, bytes)?.1),
        types::I64 => Ok(parse_i64(at, bytes)?.1),
        types::DOUBLE => Ok(parse_bytes(at, 8, bytes)?.1),
        types::BINARY => Ok(parse_binary(at, bytes)?.1),
        _ => Err(ThriftFault::BadType { at, ty }),
    }
}

/// Passes over an element of a list, a set or a map, where a boolean takes a byte.
#[cycle(skip)]
#[tactic(auto, unfolding(crate::specs::Reading::after_element))]
fn skip_element(end: usize, depth: u8, ty: u8, bytes: &[u8]) -> Result<&[u8], ThriftFault>
    requires { depth ≤ 16 }
    ensures exact { Leaves result (after_element end (after_value end depth) ty bytes.now) }
    ensures shorter { IfOk result (λ x. length x.now < length bytes.now) }
{
    if is_flag(ty) {
        let (_, rest) = parse_bytes(start_of(end, bytes), 1, bytes)?;
        return Ok(rest);
    }
    skip_value(end, depth, ty, bytes)
}

#[cycle(skip)]
#[tactic(auto, using(crate::proofs::SkippingLemmas::each_turn))]
fn skip_elements(
    end: usize,
    depth: u8,
    ty: u8,
    count: u32,
    bytes: &[u8],
) -> Result<&[u8], ThriftFault>
    requires { depth ≤ 16 }
    ensures exact { Leaves result (after_each (after_element end (after_value end depth) ty) count bytes.now) }
    ensures shorter { IfOk result (λ x. length x.now ≤ length bytes.now) }
{
    let mut rest = bytes;
    for _turn in 0..count {
        rest = skip_element(end, depth, ty, rest)?;
    }
    Ok(rest)
}

/// Passes over a key and a value.
#[cycle(skip)]
#[tactic(auto, unfolding(crate::specs::Reading::after_entry))]
fn skip_entry(end: usize, depth: u8, key: u8, value: u8, bytes: &[u8]) -> Result<&[u8], ThriftFault>
    requires { depth ≤ 16 }
    ensures exact { Leaves result (after_entry end (after_value end depth) key value bytes.now) }
    ensures shorter { IfOk result (λ x. length x.now < length bytes.now) }
{
    let rest = skip_element(end, depth, key, bytes)?;
    skip_element(end, depth, value, rest)
}

#[cycle(skip)]
#[tactic(auto, using(crate::proofs::SkippingLemmas::each_turn))]
fn skip_entries(
    end: usize,
    depth: u8,
    key: u8,
    value: u8,
    count: u32,
    bytes: &[u8],
) -> Result<&[u8], ThriftFault>
    requires { depth ≤ 16 }
    ensures exact { Leaves result (after_each (after_entry end (after_value end depth) key value) count bytes.now) }
    ensures shorter { IfOk result (λ x. length x.now ≤ length bytes.now) }
{
    let mut rest = bytes;
    for _turn in 0..count {
        rest = skip_entry(end, depth, key, value, rest)?;
    }
    Ok(rest)
}

/// Passes over a struct's fields and its stop. Each field's header takes a byte, so there are no
/// more fields than bytes.
#[cycle(skip)]
#[tactic(auto, using(crate::proofs::SkippingLemmas::fields_turn))]
fn skip_fields(end: usize, depth: u8, bytes: &[u8]) -> Result<&[u8], ThriftFault>
    requires { depth ≤ 16 }
    ensures exact { Leaves result (after_fields end (after_value end depth) (length bytes.now) (pos 0) bytes.now) }
    ensures shorter { IfOk result (λ x. length x.now < length bytes.now) }
{
    let mut rest = bytes;
    let mut last = 0;
    for _turn in 0..bytes.len() {
        let (header, after) = parse_field_header(start_of(end, rest), last, rest)?;
        let Some((id, ty)) = header else {
            return Ok(after);
        };
        last = id;
        rest = skip_value(end, depth, ty, after)?;
    }
    Err(ThriftFault::Short {
        at: start_of(end, rest),
    })
}

/// Passes over a struct, a map, a list or a set. Inside it at most `depth` more may stand inside
/// one another.
#[cycle(skip)]
#[tactic(auto, unfolding(crate::specs::Reading::after_nested))]
fn skip_nested(end: usize, depth: u8, ty: u8, bytes: &[u8]) -> Result<&[u8], ThriftFault>
    requires { depth ≤ 16 }
    ensures exact { Leaves result (after_nested end (after_value end depth) ty bytes.now) }
    ensures shorter { IfOk result (λ x. length x.now < length bytes.now) }
{
    let at = start_of(end, bytes);
    match ty {
        types::STRUCT => skip_fields(end, depth, bytes),
        types::MAP => {
            let ((key, value, size), rest) = parse_map_header(at, bytes)?;
            skip_entries(end, depth, key, value, size, rest)
        }
        _ => {
            let ((element, size), rest) = parse_list_header(at, bytes)?;
            skip_elements(end, depth, element, size, rest)
        }
    }
}

/// Passes over a value with at most `depth` structs, lists, sets and maps inside one another.
#[cycle(skip)]
#[tactic(auto, using(crate::proofs::SkippingLemmas::value_cases))]
pub fn skip_value(end: usize, depth: u8, ty: u8, bytes: &[u8]) -> Result<&[u8], ThriftFault>
    requires { depth ≤ 16 }
    ensures exact { Leaves result (after_value end depth ty bytes.now) }
    ensures shorter { IfOk result (λ x. length x.now ≤ length bytes.now) }
    ensures progress { ty ≢ TRUE → ty ≢ FALSE → IfOk result (λ x. length x.now < length bytes.now) }
{
    if !is_nested(ty) {
        return skip_plain(start_of(end, bytes), ty, bytes);
    }
    if depth == 0 {
        return Err(ThriftFault::TooDeep {
            at: start_of(end, bytes),
        });
    }
    skip_nested(end, depth - 1, ty, bytes)
}
