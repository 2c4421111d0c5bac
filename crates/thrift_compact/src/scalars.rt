//! Numbers and byte strings, read from the front of a slice.
//!
//! Each function takes the offset `at` of the item's first byte, which its faults name, and returns
//! what it read with the bytes behind it.

ghost use Rattle.std.specs.Prelude.{◌≡◌, ◌+◌, ◌^◌, ◌<◌, ◌≤◌, length, IfOk};
ghost use Rattle.thrift_compact.specs.Spelling.{from_zigzag};
ghost use Rattle.thrift_compact.specs.Reading.{start_of, number_in, unsigned_in, signed_in, byte_in, bytes_in, binary_in, count_in};
ghost use Rattle.thrift_compact.specs.Parsing.{Parses, ParsesSlice};

use crate::fault::ThriftFault;

/// The most bytes that a number takes.
pub const MAX_NUMBER_BYTES: usize = 10;

/// The offset of the first of `bytes`, which reach up to the offset `end`.
pub fn start_of(end: usize, bytes: &[u8]) -> u64
    ensures { result ≡ start_of end bytes.now }
{
    end.saturating_sub(bytes.len()) as u64
}

/// A number of at most `most` bytes: seven bits, and the number in the bytes behind if the high bit
/// says that more follow.
#[tactic(auto, using(crate::proofs::NumberBounds::group_bounds), unfolding(crate::specs::Reading::number_in))]
fn parse_number(at: u64, most: usize, bytes: &[u8]) -> Result<(u128, &[u8]), ThriftFault>
    requires { most ≤ 10 }
    ensures exact { Parses result (number_in at most bytes.now) }
    ensures shorter { IfOk result (λ x. length x.1.now < length bytes.now) }
    ensures limit { IfOk result (λ x. x.0 < 128 ^ most) }
{
    if most == 0 {
        return Err(ThriftFault::TooWide { at });
    }
    match bytes {
        [] => Err(ThriftFault::Short { at }),
        [b, rest @ ..] => {
            if *b < 128 {
                return Ok((*b as u128, rest));
            }
            let (high, rest) = parse_number(at, most - 1, rest)?;
            Ok(((*b % 128) as u128 + 128 * high, rest))
        }
    }
}

/// A number below `limit`.
#[tactic(auto, unfolding(crate::specs::Reading::unsigned_in))]
pub fn parse_unsigned(at: u64, limit: u128, bytes: &[u8]) -> Result<(u64, &[u8]), ThriftFault>
    requires { limit ≤ 2 ^ 64 }
    ensures exact { Parses result (unsigned_in at limit bytes.now) }
    ensures shorter { IfOk result (λ x. length x.1.now < length bytes.now) }
    ensures limit { IfOk result (λ x. x.0 < limit) }
{
    let (n, rest) = parse_number(at, MAX_NUMBER_BYTES, bytes)?;
    if n < limit {
        Ok((n as u64, rest))
    } else {
        Err(ThriftFault::TooWide { at })
    }
}

fn from_zigzag_16(n: u16) -> i16
    ensures { result ≡ from_zigzag n }
{
    let half = (n / 2) as i16;
    if n % 2 == 0 { half } else { -1 - half }
}

fn from_zigzag_32(n: u32) -> i32
    ensures { result ≡ from_zigzag n }
{
    let half = (n / 2) as i32;
    if n % 2 == 0 { half } else { -1 - half }
}

fn from_zigzag_64(n: u64) -> i64
    ensures { result ≡ from_zigzag n }
{
    let half = (n / 2) as i64;
    if n % 2 == 0 { half } else { -1 - half }
}

#[tactic(auto, unfolding(crate::specs::Reading::signed_in))]
pub fn parse_i16(at: u64, bytes: &[u8]) -> Result<(i16, &[u8]), ThriftFault>
    ensures exact { Parses result (signed_in at (2 ^ 16) bytes.now) }
    ensures shorter { IfOk result (λ x. length x.1.now < length bytes.now) }
{
    let (n, rest) = parse_unsigned(at, 1 << 16, bytes)?;
    Ok((from_zigzag_16(n as u16), rest))
}

#[tactic(auto, unfolding(crate::specs::Reading::signed_in))]
pub fn parse_i32(at: u64, bytes: &[u8]) -> Result<(i32, &[u8]), ThriftFault>
    ensures exact { Parses result (signed_in at (2 ^ 32) bytes.now) }
    ensures shorter { IfOk result (λ x. length x.1.now < length bytes.now) }
{
    let (n, rest) = parse_unsigned(at, 1 << 32, bytes)?;
    Ok((from_zigzag_32(n as u32), rest))
}

#[tactic(auto, unfolding(crate::specs::Reading::signed_in))]
pub fn parse_i64(at: u64, bytes: &[u8]) -> Result<(i64, &[u8]), ThriftFault>
    ensures exact { Parses result (signed_in at (2 ^ 64) bytes.now) }
    ensures shorter { IfOk result (λ x. length x.1.now < length bytes.now) }
{
    let (n, rest) = parse_unsigned(at, 1 << 64, bytes)?;
    Ok((from_zigzag_64(n), rest))
}

/// A number of 32 bits that counts something: a negative one is too wide.
#[tactic(auto, unfolding(crate::specs::Reading::count_in))]
pub fn parse_u32(at: u64, bytes: &[u8]) -> Result<(u32, &[u8]), ThriftFault>
    ensures exact { Parses result (count_in at (2 ^ 32) bytes.now) }
    ensures shorter { IfOk result (λ x. length x.1.now < length bytes.now) }
{
    let (number, rest) = parse_i32(at, bytes)?;
    if number < 0 {
        return Err(ThriftFault::TooWide { at });
    }
    Ok((number as u32, rest))
}

/// A number of 64 bits that counts something: a negative one is too wide.
#[tactic(auto, unfolding(crate::specs::Reading::count_in))]
pub fn parse_u64(at: u64, bytes: &[u8]) -> Result<(u64, &[u8]), ThriftFault>
    ensures exact { Parses result (count_in at (2 ^ 64) bytes.now) }
    ensures shorter { IfOk result (λ x. length x.1.now < length bytes.now) }
{
    let (number, rest) = parse_i64(at, bytes)?;
    if number < 0 {
        return Err(ThriftFault::TooWide { at });
    }
    Ok((number as u64, rest))
}

#[tactic(auto, unfolding(crate::specs::Reading::byte_in))]
pub fn parse_byte(at: u64, bytes: &[u8]) -> Result<(i8, &[u8]), ThriftFault>
    ensures exact { Parses result (byte_in at bytes.now) }
    ensures shorter { IfOk result (λ x. length x.1.now < length bytes.now) }
{
    let [b, rest @ ..] = bytes else {
        return Err(ThriftFault::Short { at });
    };
    let value = if *b < 128 {
        *b as i8
    } else {
        -1 - (255 - *b) as i8
    };
    Ok((value, rest))
}

/// `count` bytes.
#[tactic(auto, unfolding(crate::specs::Reading::bytes_in))]
pub fn parse_bytes(at: u64, count: u64, bytes: &[u8]) -> Result<(&[u8], &[u8]), ThriftFault>
    ensures exact { ParsesSlice result (bytes_in at count bytes.now) }
    ensures shorter { IfOk result (λ x. length x.1.now + count ≡ length bytes.now) }
{
    if (bytes.len() as u64) < count {
        return Err(ThriftFault::Short { at });
    }
    Ok(bytes.split_at(count as usize))
}

/// A length below 2^32 and so many bytes.
#[tactic(auto, unfolding(crate::specs::Reading::binary_in))]
pub fn parse_binary(at: u64, bytes: &[u8]) -> Result<(&[u8], &[u8]), ThriftFault>
    ensures exact { ParsesSlice result (binary_in at bytes.now) }
    ensures shorter { IfOk result (λ x. length x.1.now < length bytes.now) }
{
    let (count, rest) = parse_unsigned(at, 1 << 32, bytes)?;
    parse_bytes(at, count, rest)
}
