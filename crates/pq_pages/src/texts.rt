//! Whether byte strings are texts.

ghost use Rattle.std.specs.Prelude.{◌≡◌, ◌<◌, ◌^◌, Ok, Err, map};
ghost use Rattle.std.specs.Str.{is_utf8};
ghost use Rattle.pq_encodings.specs.Values.{values_of};
ghost use Rattle.pq_pages.specs.Pages as pages;

use crate::fault::PageFault;
use pq_encodings::Plain;

#[tactic(auto, using(crate::proofs::TextLemmas::text_tests))]
fn is_text(bytes: &[u8]) -> bool
    ensures { result ≡ is_utf8 bytes.now }
{
    match str::from_utf8(bytes) {
        Ok(_) => true,
        Err(_) => false,
    }
}

/// Whether all byte strings are texts. The place is that of the first.
fn all_texts(place: u64, strings: &[Vec<u8>]) -> Result<(), PageFault>
    requires { place < 2 ^ 63 }
    ensures { result ≡ pages.all_texts place (map (λ v. v.items) strings.now) }
{
    for (at, string) in strings.iter().enumerate() {
        if !is_text(string.as_slice()) {
            return Err(PageFault::BadUtf8 {
                at: place + at as u64,
            });
        }
    }
    Ok(())
}

/// Whether all values are texts, where they have to be. The place is that of the first.
pub fn are_texts(text: bool, place: u64, values: &Plain) -> Result<(), PageFault>
    requires { place < 2 ^ 63 }
    ensures { result ≡ pages.are_texts text place (values_of values.now) }
{
    match values {
        Plain::Strings(strings) => {
            if text {
                all_texts(place, strings.as_slice())
            } else {
                Ok(())
            }
        }
        Plain::Bools(_) => Ok(()),
        Plain::I32s(_) => Ok(()),
        Plain::I64s(_) => Ok(()),
    }
}
