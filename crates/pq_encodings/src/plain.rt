//! Plain values (Apache Parquet format, "Plain").

ghost use Rattle.std.specs.Prelude.{◌≡◌, ◌++◌, List, ℕ, IfOk, Ok};
ghost use Rattle.answers.specs.Answers.{Gives};
ghost use Rattle.pq_encodings.specs.Faults.{is_memory};
ghost use Rattle.pq_encodings.specs.Values.{AreInRange, AreShort, BeginsWith, IsReadAgain, Values, count_of, kind_of, value_bytes, values_in, values_of};

use crate::bools::{bool_bytes, decode_bools};
use crate::fault::EncFault;
use crate::numbers::{decode_i32s, decode_i64s, i32_bytes, i64_bytes};
use crate::strings::{ByteLists, decode_strings, string_bytes};
use std::alloc::{AllocError, Global};

/// The physical types that are read.
#[derive(Clone, Copy, Debug, PartialEq, Eq)]
pub enum Physical {
    Boolean,
    Int32,
    Int64,
    ByteArray,
}

/// The values of a column, without its NULLs.
#[derive(Debug, Drop)]
pub enum Plain {
    Bools(Vec<bool>),
    I32s(Vec<i32>),
    I64s(Vec<i64>),
    Strings(ByteLists),
}

/// The first `count` values of a kind, or the first fault.
fn first_values(alloc: Global, kind: Physical, count: u64, bytes: &[u8]) -> Result<Plain, EncFault>
    ensures { Gives is_memory values_of result (values_in kind count bytes.now) }
{
    match kind {
        Physical::Boolean => Ok(Plain::Bools(decode_bools(alloc, bytes, count)?)),
        Physical::Int32 => Ok(Plain::I32s(decode_i32s(alloc, bytes, count)?)),
        Physical::Int64 => Ok(Plain::I64s(decode_i64s(alloc, bytes, count)?)),
        Physical::ByteArray => {
            let lists = decode_strings(alloc, bytes, count)?;
            Ok(Plain::Strings(ByteLists::from_vec(lists)))
        }
    }
}

/// The first `count` plain values of the bytes. Bytes may follow.
pub fn decode_plain(
    alloc: Global,
    kind: Physical,
    count: u64,
    bytes: &[u8],
) -> Result<Plain, EncFault>
    // The bytes begin with what is answered, and what they begin with is answered, unless memory runs out.
    ensures held { IfOk result (λ p. BeginsWith (values_of p) bytes.now) }
    ensures only { (vs : Values) → kind_of vs ≡ kind → count_of vs ≡ count → AreShort vs → AreInRange vs → BeginsWith vs bytes.now →
        Gives is_memory values_of result (Ok vs) }

    // Which fault it is, and its place.
    ensures gives { Gives is_memory values_of result (values_in kind count bytes.now) }

    ensures kind { IfOk result (λ p. kind_of (values_of p) ≡ kind) }
    ensures count { IfOk result (λ p. count_of (values_of p) ≡ count) }
    ensures short { IfOk result (λ p. AreShort (values_of p)) }
{
    first_values(alloc, kind, count, bytes)
}

/// The bytes of the values, by their type.
fn plain_bytes(alloc: Global, values: &Plain) -> Result<Vec<u8>, AllocError>
    requires { AreShort (values_of values.now) }
    ensures { IfOk result (λ v. v.items ≡ value_bytes (values_of values.now)) }
{
    match values {
        Plain::Bools(values) => bool_bytes(alloc, values),
        Plain::I32s(values) => i32_bytes(alloc, values),
        Plain::I64s(values) => i64_bytes(alloc, values),
        Plain::Strings(lists) => string_bytes(alloc, lists.as_slice()),
    }
}

/// The plain bytes of the values.
pub fn encode_plain(alloc: Global, values: &Plain) -> Result<Vec<u8>, AllocError>
    requires { AreShort (values_of values.now) }
    ensures spelled { IfOk result (λ v. v.items ≡ value_bytes (values_of values.now)) }

    // The values are read again, whatever follows.
    ensures again { IfOk result (λ v. (rest : List ℕ) → AreInRange (values_of values.now) → IsReadAgain (values_of values.now) (v.items ++ rest)) }
{
    plain_bytes(alloc, values)
}
