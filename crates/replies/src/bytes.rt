ghost use Rattle.std.specs.Prelude.{◌≡◌, ◌++◌, OnOk, OnErr, decimal};
ghost use Rattle.lake_types.specs.Texts.{quoted};
ghost use Rattle.lake_model.specs.Texts as spec;
ghost use Rattle.replies.specs.Texts.{BeginsWith};

use itoa::Buffer;
use lake_types::{NoMemory, TableName, Words};

pub fn push_words(out: &mut Vec<u8>, words: &str) -> Result<(), NoMemory>
    ensures ok { OnOk result (out.new.items ≡ out.old.items ++ words.now) }
    ensures err { OnErr result (BeginsWith out.new.items out.old.items) }
{
    out.extend_from_slice(words.as_bytes())?;
    Ok(())
}

/// Adds words and then a text as it is.
pub fn push_text(out: &mut Vec<u8>, words: &str, text: &str) -> Result<(), NoMemory>
    ensures ok { OnOk result (out.new.items ≡ out.old.items ++ (words.now ++ text.now)) }
    ensures err { OnErr result (BeginsWith out.new.items out.old.items) }
{
    push_words(out, words)?;
    push_words(out, text)?;
    Ok(())
}

fn push_decimal(out: &mut Vec<u8>, n: u64) -> Result<(), NoMemory>
    ensures ok { OnOk result (out.new.items ≡ out.old.items ++ decimal n) }
    ensures err { OnErr result (BeginsWith out.new.items out.old.items) }
{
    let mut buffer = Buffer::new();
    push_words(out, buffer.format(n))?;
    Ok(())
}

/// Adds words and then a number.
pub fn push_number(out: &mut Vec<u8>, words: &str, n: u64) -> Result<(), NoMemory>
    ensures ok { OnOk result (out.new.items ≡ out.old.items ++ (words.now ++ decimal n)) }
    ensures err { OnErr result (BeginsWith out.new.items out.old.items) }
{
    push_words(out, words)?;
    push_decimal(out, n)?;
    Ok(())
}

/// Adds words and then two numbers with a blank between them.
pub fn push_numbers(out: &mut Vec<u8>, words: &str, first: u64, second: u64) -> Result<(), NoMemory>
    ensures ok { OnOk result (out.new.items ≡ out.old.items ++ (words.now ++ spec.two_numbers first second)) }
    ensures err { OnErr result (BeginsWith out.new.items out.old.items) }
{
    push_number(out, words, first)?;
    push_number(out, " ", second)?;
    Ok(())
}

/// Adds a name in double quotes, inner ones doubled.
fn push_quoted(out: &mut Vec<u8>, name: &[u8]) -> Result<(), NoMemory>
    ensures ok { OnOk result (out.new.items ≡ out.old.items ++ quoted name.now) }
    ensures err { OnErr result (BeginsWith out.new.items out.old.items) }
{
    out.push(b'"')?;
    for b in name {
        if *b == b'"' {
            out.push(b'"')?;
        }
        out.push(*b)?;
    }
    out.push(b'"')?;
    Ok(())
}

/// Adds words and then a name in double quotes.
pub fn push_name(out: &mut Vec<u8>, words: &str, name: &Words) -> Result<(), NoMemory>
    ensures ok { OnOk result (out.new.items ≡ out.old.items ++ (words.now ++ quoted name.now)) }
    ensures err { OnErr result (BeginsWith out.new.items out.old.items) }
{
    push_words(out, words)?;
    push_quoted(out, name.as_str().as_bytes())?;
    Ok(())
}

/// Adds words and then a table's name behind its schema's, each in double quotes.
pub fn push_table(out: &mut Vec<u8>, words: &str, table: &TableName) -> Result<(), NoMemory>
    ensures ok { OnOk result (out.new.items ≡ out.old.items ++ (words.now ++ spec.table_text table.now)) }
    ensures err { OnErr result (BeginsWith out.new.items out.old.items) }
{
    push_name(out, words, &table.schema)?;
    push_name(out, ".", &table.table)?;
    Ok(())
}

/// Adds a text, each line feed in it as the two characters `\n`.
pub fn push_shown(out: &mut Vec<u8>, text: &[u8]) -> Result<(), NoMemory>
    ensures ok { OnOk result (out.new.items ≡ out.old.items ++ spec.shown text.now) }
    ensures err { OnErr result (BeginsWith out.new.items out.old.items) }
{
    for b in text {
        if *b == b'\n' {
            out.push(b'\\')?;
            out.push(b'n')?;
        } else {
            out.push(*b)?;
        }
    }
    Ok(())
}
