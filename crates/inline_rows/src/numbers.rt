//! Numbers of seven bits a byte, the low ones first, in the shortest spelling alone.

ghost use Rattle.std.specs.Prelude.{◌≡◌, ◌++◌, ◌+◌, ◌^◌, ◌<◌, ◌≤◌, length, IfSome, OnOk};
ghost use Rattle.thrift_compact.specs.Shortest.{number_spelling, unsigned_spelling, signed_spelling, to_zigzag};
ghost use Rattle.thrift_compact.specs.Spelling.{from_zigzag};
ghost use Rattle.inline_rows.specs.Finding.{Finds, FindsSlice};
ghost use Rattle.inline_rows.specs.Reading as spec;

use std::alloc::AllocError;

/// The most bytes that a number takes.
const MAX_NUMBER_BYTES: usize = 10;

/// A number of at most `most` bytes. One that ends with a group of zeros has a shorter spelling.
#[tactic(auto, using(thrift_compact::proofs::NumberBounds::group_bounds), unfolding(crate::specs::Reading::number_in))]
fn parse_number(most: usize, bytes: &[u8]) -> Option<(u128, &[u8])>
    requires { most ≤ 10 }
    ensures exact { Finds result (spec.number_in most bytes.now) }
    ensures shorter { IfSome result (λ x. length x.1.now < length bytes.now) }
    ensures limit { IfSome result (λ x. x.0 < 128 ^ most) }
{
    if most == 0 {
        return None;
    }
    match bytes {
        [] => None,
        [b, rest @ ..] => {
            if *b < 128 {
                return Some((*b as u128, rest));
            }
            let (high, rest) = parse_number(most - 1, rest)?;
            if high == 0 {
                return None;
            }
            Some(((*b % 128) as u128 + 128 * high, rest))
        }
    }
}

/// A number below `limit`.
#[tactic(auto, unfolding(crate::specs::Reading::unsigned_in))]
pub fn parse_unsigned(limit: u128, bytes: &[u8]) -> Option<(u64, &[u8])>
    requires { limit ≤ 2 ^ 64 }
    ensures exact { Finds result (spec.unsigned_in limit bytes.now) }
    ensures shorter { IfSome result (λ x. length x.1.now < length bytes.now) }
    ensures limit { IfSome result (λ x. x.0 < limit) }
{
    let (number, rest) = parse_number(MAX_NUMBER_BYTES, bytes)?;
    if number < limit {
        Some((number as u64, rest))
    } else {
        None
    }
}

fn from_zigzag_32(n: u32) -> i32
    ensures { result ≡ from_zigzag n }
{
    let half = (n / 2) as i32;
    if n % 2 == 0 { half } else { -1 - half }
}

fn from_zigzag_64(n: u64) -> i64
    ensures { result ≡ from_zigzag n }
{
    let half = (n / 2) as i64;
    if n % 2 == 0 { half } else { -1 - half }
}

pub fn parse_i32(bytes: &[u8]) -> Option<(i32, &[u8])>
    ensures { Finds result (spec.signed_in (2 ^ 32) bytes.now) }
{
    let (number, rest) = parse_unsigned(1 << 32, bytes)?;
    Some((from_zigzag_32(number as u32), rest))
}

pub fn parse_i64(bytes: &[u8]) -> Option<(i64, &[u8])>
    ensures { Finds result (spec.signed_in (2 ^ 64) bytes.now) }
{
    let (number, rest) = parse_unsigned(1 << 64, bytes)?;
    Some((from_zigzag_64(number), rest))
}

fn split(count: u64, bytes: &[u8]) -> Option<(&[u8], &[u8])>
    ensures { FindsSlice result (spec.split_in count bytes.now) }
{
    if (bytes.len() as u64) < count {
        return None;
    }
    Some(bytes.split_at(count as usize))
}

/// A length and so many bytes.
pub fn parse_binary(bytes: &[u8]) -> Option<(&[u8], &[u8])>
    ensures { FindsSlice result (spec.binary_in bytes.now) }
{
    let (count, rest) = parse_unsigned(1 << 64, bytes)?;
    split(count, rest)
}

/// Adds a number in at most `most` bytes.
#[tactic(auto, using(crate::proofs::CellLemmas::groups_pushed), unfolding(thrift_compact::specs::Shortest::number_spelling))]
fn push_groups(out: &mut Vec<u8>, most: usize, n: u64) -> Result<(), AllocError>
    ensures { OnOk result (out.new.items ≡ out.old.items ++ number_spelling most n) }
{
    if most == 0 {
        return Ok(());
    }
    if n < 128 {
        out.push(n as u8)?;
        return Ok(());
    }
    out.push((128 + n % 128) as u8)?;
    push_groups(out, most - 1, n / 128)
}

pub fn push_unsigned(out: &mut Vec<u8>, n: u64) -> Result<(), AllocError>
    ensures { OnOk result (out.new.items ≡ out.old.items ++ unsigned_spelling n) }
{
    push_groups(out, MAX_NUMBER_BYTES, n)
}

pub fn push_signed(out: &mut Vec<u8>, v: i64) -> Result<(), AllocError>
    ensures { OnOk result (out.new.items ≡ out.old.items ++ signed_spelling v) }
{
    let zigzag = if v < 0 {
        2 * (-(v + 1)) as u64 + 1
    } else {
        2 * v as u64
    };
    push_unsigned(out, zigzag)
}
