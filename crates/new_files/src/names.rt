ghost use Rattle.std.specs.Prelude.{◌≡◌, ◌≢◌, ◌≤◌, ◌<◌, ◌^◌, ◌↔◌, ◌++◌};
ghost use Rattle.std.specs.Prelude.{IfOk, IfSome, IfNone, IsTrue, List, ℕ, length};
ghost use Rattle.new_files.specs.Names as spec;

use lake_types::{NoMemory, Words};
use std::alloc::Global;
use uuid::Uuid;

/// How long a uuid is in its hyphenated form.
const UUID_BYTES: usize = 36;

/// What a name ends with, behind its uuid.
fn ending(deletes: bool) -> &'static str
    ensures { result.now ≡ spec.ending deletes }
{
    if deletes {
        "-delete.parquet"
    } else {
        ".parquet"
    }
}

/// The uuid of a number, written into a buffer.
fn encoded<'b>(number: u128, buffer: &'b mut [u8]) -> &'b str
    requires { 36 ≤ length buffer.old }
    ensures text { result.now ≡ spec.uuid_of number }
    ensures small { number < 2 ^ 128 }
{
    Uuid::from_u128(number).hyphenated().encode_lower(buffer)
}

/// The name of the data file of a number, or of its delete file.
pub fn file_name(alloc: Global, number: u128, deletes: bool) -> Result<Words, NoMemory>
    ensures name { IfOk result (λ name. name ≡ spec.name_of number deletes) }
    // What a u128 is, for proofs about the number of a name.
    ensures small { number < 2 ^ 128 }
{
    let mut buffer = [0u8; UUID_BYTES];
    let mut name = String::from_str(alloc, encoded(number, &mut buffer))?;
    name.push_str(ending(deletes))?;
    Ok(Words::from_string(name))
}

fn same(a: &[u8], b: &[u8]) -> bool
    ensures { IsTrue result ↔ (a.now ≡ b.now) }
{
    *a == *b
}

/// Whether this is a number's uuid in hyphenated lower case. The uuid that is read is spelled again, since
/// a uuid is read in other forms and in upper case too.
fn is_uuid(text: &[u8]) -> bool
    ensures { IsTrue result ↔ spec.IsUuid text.now }
{
    let Ok(id) = Uuid::try_parse_ascii(text) else {
        return false;
    };
    let mut buffer = [0u8; UUID_BYTES];
    let again = encoded(id.as_u128(), &mut buffer);
    same(again.as_bytes(), text)
}

/// What stands before an ending.
fn before<'a>(bytes: &'a [u8], end: &[u8]) -> Option<&'a [u8]>
    ensures some { IfSome result (λ front. bytes.now ≡ front.now ++ end.now) }
    ensures none { IfNone result ((front : List ℕ) → bytes.now ≢ front ++ end.now) }
{
    if bytes.len() < end.len() {
        return None;
    }
    let (front, back) = bytes.split_at(bytes.len() - end.len());
    if same(back, end) { Some(front) } else { None }
}

/// Whether the name is a uuid with this ending.
fn has_form(name: &str, deletes: bool) -> bool
    ensures { IsTrue result ↔ spec.HasForm name.now deletes }
{
    match before(name.as_bytes(), ending(deletes).as_bytes()) {
        Some(front) => is_uuid(front),
        None => false,
    }
}

/// Whether a name has the form of data and delete files: a uuid in hyphenated lower case, and one of their
/// endings.
pub fn own_form(name: &str) -> bool
    ensures { IsTrue result ↔ spec.IsOwn name.now }
{
    has_form(name, false) || has_form(name, true)
}
