//! Variable-length numbers: unsigned LEB128, seven bits a byte, the low ones first.

ghost use Rattle.std.specs.Prelude.{◌≡◌, ◌≤◌, ◌<◌, ◌+◌, ◌*◌, ◌^◌, ◌++◌, length, OnOk};
ghost use Rattle.pq_encodings.specs.Varint as spec;
ghost use Rattle.pq_encodings.specs.Varint.{IsWithin};
ghost use Rattle.pq_encodings.specs.declared.varint.Varint.TheVariants as varint;

use std::alloc::AllocError;

/// What stands at the front of some bytes.
#[derive(Clone, Copy, Debug, PartialEq, Eq)]
pub enum Varint {
    /// The bytes end inside the number.
    Short,
    /// The number takes too many bytes, or doesn't fit 64 bits.
    Wide,
    /// A number, and how many bytes it takes.
    Is(u64, usize),
}

/// The number of at most `most` bytes at the front.
pub fn varint_in(most: u32, bytes: &[u8]) -> Varint
    requires { most ≤ 10 }
    ensures value { result ≡ spec.varint_in most bytes.now }
    ensures within { IsWithin most (length bytes.now) result }
{
    match bytes {
        [] => {
            if most == 0 {
                Varint::Wide
            } else {
                Varint::Short
            }
        }
        [first, rest @ ..] => {
            if most == 0 {
                return Varint::Wide;
            }
            if *first < 128 {
                return Varint::Is(u64::from(*first), 1);
            }
            match varint_in(most - 1, rest) {
                Varint::Is(high, len) => onto_seven(*first - 128, high, len),
                other => other,
            }
        }
    }
}

/// The number of seven bits below a number that takes `len` bytes.
fn onto_seven(low: u8, high: u64, len: usize) -> Varint
    requires low { low < 128 }
    requires len { len < 100 }
    ensures { result ≡ spec.onto_seven low (varint.Is high len) }
{
    match high.checked_mul(128) {
        Some(high) => match high.checked_add(u64::from(low)) {
            Some(value) => Varint::Is(value, len + 1),
            None => Varint::Wide,
        },
        None => Varint::Wide,
    }
}

/// Appends the shortest form of a number, in at most `most + 1` bytes.
pub fn push_varint(out: &mut Vec<u8>, most: u32, number: u64) -> Result<(), AllocError>
    requires most { most ≤ 9 }
    requires fits { number < 2 ^ (7 * most + 1) }
    ensures { OnOk result (out.new.items ≡ out.old.items ++ spec.varint_bytes most number) }
{
    if most == 0 || number < 128 {
        out.push(number as u8)?;
        return Ok(());
    }
    out.push((number % 128) as u8 + 128)?;
    match push_varint(out, most - 1, number / 128) {
        Ok(()) => Ok(()),
        Err(e) => Err(e),
    }
}
