//! The two ends of a file, and the footer before the second.

ghost use Rattle.std.specs.Prelude.{◌≡◌, ◌≤◌, length};
ghost use Rattle.answers.specs.Answers.{Gives};
ghost use Rattle.pq_file.specs.Answers.{is_memory};
ghost use Rattle.pq_file.specs.Frame as spec;

use crate::fault::FileFault;
use byteorder::{ByteOrder, LittleEndian};

/// What a file begins with and ends with.
pub const MARK: [u8; 4] = *b"PAR1";

/// The mark twice, and the footer's length.
const FRAME: usize = 12;

fn is_mark(bytes: &[u8]) -> bool
    ensures { result ≡ spec.is_mark bytes.now }
{
    *bytes == *MARK.as_slice()
}

#[tactic(auto, unfolding(crate::specs::Frame::is_framed))]
fn is_framed(bytes: &[u8]) -> bool
    ensures framed { result ≡ spec.is_framed bytes.now }
{
    FRAME <= bytes.len() && is_mark(&bytes[..4]) && is_mark(&bytes[bytes.len() - 4..])
}

/// The bytes of the footer, which ends where its length stands.
#[tactic(auto, unfolding(crate::specs::Frame::footer_in, crate::specs::Frame::is_framed))]
pub fn footer_in(bytes: &[u8]) -> Result<&[u8], FileFault>
    ensures { Gives is_memory (λ footer. footer.now) result (spec.footer_in bytes.now) }
{
    if !is_framed(bytes) {
        return Err(FileFault::Magic);
    }
    let end = bytes.len() - 8;
    let length = LittleEndian::read_u32(&bytes[end..]) as usize;
    if bytes.len() - FRAME < length {
        return Err(FileFault::Footer {
            length: length as u64,
        });
    }
    Ok(&bytes[end - length..end])
}
