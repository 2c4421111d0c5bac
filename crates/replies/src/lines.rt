ghost use Rattle.std.specs.Prelude.{◌≡◌, ◌++◌, OnOk, OnErr, flat_map};
ghost use Rattle.lake_model.specs.Texts.{head_text, printed, printed_row, shown};
ghost use Rattle.replies.specs.Texts.{BeginsWith, reply_text};

use crate::answers::push_answer;
use crate::bytes::{push_number, push_shown, push_words};
use lake_model::Reply;
use lake_types::{NoMemory, Words};
use std::alloc::Global;

fn push_head(out: &mut Vec<u8>, session: u8, number: u64) -> Result<(), NoMemory>
    ensures ok { OnOk result (out.new.items ≡ out.old.items ++ head_text session number) }
    ensures err { OnErr result (BeginsWith out.new.items out.old.items) }
{
    push_number(out, "", u64::from(session))?;
    push_number(out, ".", number)?;
    push_words(out, " ")?;
    Ok(())
}

fn push_row(out: &mut Vec<u8>, head: &[u8], row: &Words) -> Result<(), NoMemory>
    ensures ok { OnOk result (out.new.items ≡ out.old.items ++ printed_row head.now row.now) }
    ensures err { OnErr result (BeginsWith out.new.items out.old.items) }
{
    out.extend_from_slice(head)?;
    push_words(out, "row ")?;
    push_shown(out, row.as_str().as_bytes())?;
    out.push(b'\n')?;
    Ok(())
}

fn push_rows(out: &mut Vec<u8>, head: &[u8], rows: &[Words]) -> Result<(), NoMemory>
    ensures ok { OnOk result (out.new.items ≡ out.old.items ++ flat_map (printed_row head.now) rows.now) }
    ensures err { OnErr result (BeginsWith out.new.items out.old.items) }
{
    for row in rows {
        push_row(out, head, row)?;
    }
    Ok(())
}

/// Adds the line of an answer's text.
fn push_last(out: &mut Vec<u8>, head: &[u8], text: &[u8]) -> Result<(), NoMemory>
    ensures ok { OnOk result (out.new.items ≡ out.old.items ++ printed head.now (shown text.now)) }
    ensures err { OnErr result (BeginsWith out.new.items out.old.items) }
{
    out.extend_from_slice(head)?;
    push_shown(out, text)?;
    out.push(b'\n')?;
    Ok(())
}

/// Adds the lines of a reply to what stands in `out`: its rows and then its answer, each under the head of the session
/// and of the line's number within it. Want of memory is the only refusal; what stood there stands at the front then, and
/// a part of the lines may stand behind it.
pub fn push_reply(
    alloc: Global,
    out: &mut Vec<u8>,
    session: u8,
    number: u64,
    reply: &Reply,
) -> Result<(), NoMemory>
    ensures ok { OnOk result (out.new.items ≡ out.old.items ++ reply_text (head_text session number) reply.now) }
    ensures err { OnErr result (BeginsWith out.new.items out.old.items) }
{
    let mut head = Vec::new(alloc);
    push_head(&mut head, session, number)?;
    let mut last = Vec::new(alloc);
    push_answer(alloc, &mut last, &reply.last)?;
    push_rows(out, head.as_slice(), reply.rows.as_slice())?;
    push_last(out, head.as_slice(), last.as_slice())?;
    Ok(())
}
