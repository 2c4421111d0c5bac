ghost use Rattle.std.specs.Prelude.{◌≡◌, ◌-◌, ◌^◌, ◌≤◌, min, IfOk};
ghost use Rattle.stmt_reader.specs.Values as spec;

use lake_types::limits::{MAX_COUNTER, MAX_SESSIONS};
use std::alloc::{AllocError, Global};

/// The magnitude of the least number of 64 bits.
const LEAST: u64 = 9_223_372_036_854_775_808;

/// The number that digits write. It stays at its type's last value.
fn natural(digits: &[u8]) -> u64
    ensures { result ≡ min (spec.natural digits.now) (2 ^ 64 - 1) }
{
    let mut number = 0u64;
    for digit in digits {
        let digit = digit.saturating_sub(b'0') as u64;
        number = number.saturating_mul(10).saturating_add(digit);
    }
    number
}

fn is_negative(text: &[u8]) -> bool
    ensures { result ≡ spec.is_negative text.now }
{
    match text {
        [b, ..] => *b == b'-',
        [] => false,
    }
}

/// The number without its sign. It stays at its type's last value.
fn magnitude(text: &[u8]) -> u64
    ensures { result ≡ min (spec.magnitude text.now) (2 ^ 64 - 1) }
{
    match text {
        [b, rest @ ..] => {
            if *b == b'-' {
                natural(rest)
            } else {
                natural(text)
            }
        }
        [] => 0,
    }
}

fn signed(is_negative: bool, magnitude: u64) -> Option<i64>
    ensures { result ≡ spec.signed is_negative magnitude }
{
    if !is_negative {
        return if magnitude < LEAST {
            Some(magnitude as i64)
        } else {
            None
        };
    }
    if magnitude < LEAST {
        Some(-(magnitude as i64))
    } else if magnitude == LEAST {
        Some(i64::MIN)
    } else {
        None
    }
}

fn counted(is_negative: bool, magnitude: u64) -> Option<u64>
    ensures { result ≡ spec.counted is_negative magnitude }
{
    let most = if is_negative { 0 } else { MAX_COUNTER };
    if magnitude <= most {
        Some(magnitude)
    } else {
        None
    }
}

fn numbered(is_negative: bool, magnitude: u64) -> Option<u8>
    ensures { result ≡ spec.numbered is_negative magnitude }
{
    if !is_negative && 1 <= magnitude && magnitude <= u64::from(MAX_SESSIONS) {
        Some(magnitude as u8)
    } else {
        None
    }
}

/// The number that a literal stands for; none where 64 bits don't hold it.
#[tactic(auto, using(crate::proofs::ValueLemmas::capped))]
pub fn integer_of(text: &[u8]) -> Option<i64>
    ensures { result ≡ spec.integer_of text.now }
{
    signed(is_negative(text), magnitude(text))
}

/// The number of a version, where it is one.
#[tactic(auto, using(crate::proofs::ValueLemmas::capped))]
pub fn count_of(text: &[u8]) -> Option<u64>
    ensures { result ≡ spec.count_of text.now }
{
    counted(is_negative(text), magnitude(text))
}

/// The session, where it is one.
#[tactic(auto, using(crate::proofs::ValueLemmas::capped))]
pub fn session_of(text: &[u8]) -> Option<u8>
    ensures { result ≡ spec.session_of text.now }
{
    numbered(is_negative(text), magnitude(text))
}

fn hex_digit(b: u8) -> u8
    ensures value { result ≡ spec.hex_digit b }
    ensures small { result ≤ 15 }
{
    let digit = if b'a' <= b {
        b - (b'a' - 10)
    } else if b'A' <= b {
        b - (b'A' - 10)
    } else {
        b.saturating_sub(b'0')
    };
    digit.min(15)
}

/// The bytes that hexadecimal digits write.
pub fn unhex(alloc: Global, mut digits: &[u8]) -> Result<Vec<u8>, AllocError>
    ensures { IfOk result (λ bytes. bytes.items ≡ spec.unhex digits.entry.now) }
{
    let mut bytes = Vec::new(alloc);
    while let [high, low, rest @ ..] = digits {
        bytes.push(hex_digit(*high) * 16 + hex_digit(*low))?;
        digits = rest;
    }
    Ok(bytes)
}
