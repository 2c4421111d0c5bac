ghost use Rattle.std.specs.Prelude.{◌≡◌, ◌==◌, slice_index};
ghost use Rattle.std.specs.List.{list_all};
ghost use Rattle.lake_top.specs.Script as spec;

/// The line without one carriage return at its end.
pub fn shorn(line: &[u8]) -> &[u8]
    ensures { result.now ≡ spec.shorn line.now }
{
    let len = line.len();
    if len > 0 && line[len - 1] == b'\r' {
        return line.split_at(len - 1).0;
    }
    line
}

fn is_blank(b: u8) -> bool
    ensures { result ≡ spec.is_blank b }
{
    b == b' ' || b == b'\t'
}

fn is_comment(line: &[u8]) -> bool
    ensures { result ≡ (slice_index line.now 0 == 35) }
{
    !line.is_empty() && line[0] == b'#'
}

fn has_blanks_alone(line: &[u8]) -> bool
    ensures { result ≡ list_all spec.is_blank line.now }
{
    line.iter().all(|b| is_blank(*b))
}

/// Whether a line is neither numbered nor answered: an empty one, one of blanks alone, and one whose
/// first byte is `#`.
pub fn is_skipped(line: &[u8]) -> bool
    ensures { result ≡ spec.is_skipped line.now }
{
    is_comment(line) || has_blanks_alone(line)
}
