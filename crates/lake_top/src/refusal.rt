ghost use Rattle.std.specs.Prelude.{◌≡◌, ◌++◌, IfOk, OnOk};
ghost use Rattle.lake_top.specs.Run as spec;

use crate::status::Status;
use cat_rules::BadRow;
use lake_types::{NoMemory, Words};
use recover::OpenNo;
use replies::{push_number, push_numbers, push_shown, push_text, push_words};
use std::alloc::Global;

/// Adds words and then which row breaks which rule.
fn push_bad_row(out: &mut Vec<u8>, words: &str, bad: &BadRow) -> Result<(), NoMemory>
    ensures { OnOk result (out.new.items ≡ out.old.items ++ (words.now ++ spec.bad_row_text bad.now)) }
{
    push_text(out, words, bad.table.as_str())?;
    push_text(out, " ", bad.key.as_str())?;
    push_number(out, " rule ", u64::from(bad.rule))?;
    Ok(())
}

/// Adds words and then which file has another size than its row says.
fn push_other_size(
    out: &mut Vec<u8>,
    words: &str,
    name: &Words,
    want: u64,
    got: u64,
) -> Result<(), NoMemory>
    ensures { OnOk result (out.new.items ≡ out.old.items ++ (words.now ++ spec.other_size_text name.now want got)) }
{
    push_text(out, words, name.as_str())?;
    push_numbers(out, " ", want, got)?;
    Ok(())
}

/// Adds what a refusal says, as it stands in its line before line feeds are spelled.
fn push_refusal(out: &mut Vec<u8>, why: &OpenNo) -> Result<(), NoMemory>
    ensures { OnOk result (out.new.items ≡ out.old.items ++ spec.refusal_text why.now) }
{
    match why {
        OpenNo::KeeperFault => push_words(out, "keeper"),
        OpenNo::DiskFault => push_words(out, "disk"),
        OpenNo::BadRow(bad) => push_bad_row(out, "damaged row ", bad),
        OpenNo::FileMissing { name } => push_text(out, "damaged missing ", name.as_str()),
        OpenNo::FileSize { name, want, got } => {
            push_other_size(out, "damaged size ", name, *want, *got)
        }
        OpenNo::Memory => push_words(out, "no memory"),
    }
}

/// The last line of a run whose lake isn't opened.
pub fn refusal_line(alloc: Global, why: &OpenNo) -> Result<Vec<u8>, NoMemory>
    ensures { IfOk result (λ line. line.items ≡ spec.refusal_line why.now) }
{
    let mut text = Vec::new(alloc);
    push_refusal(&mut text, why)?;
    let mut line = Vec::new(alloc);
    push_words(&mut line, "! ")?;
    push_shown(&mut line, text.as_slice())?;
    line.push(b'\n')?;
    Ok(line)
}

/// The status of a run whose lake isn't opened.
pub fn refusal_status(why: &OpenNo) -> Status
    ensures { result ≡ spec.refusal_status why.now }
{
    match why {
        OpenNo::KeeperFault => Status::KeeperFault,
        OpenNo::DiskFault => Status::DiskFault,
        OpenNo::BadRow(_) | OpenNo::FileMissing { .. } | OpenNo::FileSize { .. } => Status::Damaged,
        OpenNo::Memory => Status::Memory,
    }
}
