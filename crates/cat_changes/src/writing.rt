ghost use Rattle.std.specs.Prelude.{◌≡◌, ◌++◌, IfOk, OnOk, decimal};
ghost use Rattle.std.specs.String.{string_bytes};
ghost use Rattle.lake_types.specs.Kinds as spec;
ghost use Rattle.lake_types.specs.Kinds.{HasId, Says};

use crate::quotes::push_quoted;
use lake_types::{Kind, KindList, NoMemory, Words};
use std::alloc::{AllocError, Global};

/// The text of kinds that stand in order, each once.
pub fn changes_text(alloc: Global, kinds: &KindList) -> Result<Words, NoMemory>
    requires { spec.AreInOrder kinds.now }
    ensures text { IfOk result (λ text. text ≡ spec.changes_text kinds.now) }
    ensures says { IfOk result (λ text. Says text kinds.now) }
{
    let mut text = String::new(alloc);
    let Some((first, others)) = kinds.as_slice().split_first() else {
        return Ok(Words::from_string(text));
    };
    push_kind(&mut text, first)?;
    for kind in others {
        text.push(',')?;
        push_kind(&mut text, kind)?;
    }
    Ok(Words::from_string(text))
}

fn push_kind(text: &mut String, kind: &Kind) -> Result<(), AllocError>
    ensures text { OnOk result (string_bytes text.new ≡ string_bytes text.old ++ spec.kind_text kind.now) }
    ensures id { OnOk result (HasId kind.now) }
{
    match kind {
        Kind::CreatedSchema { name } => {
            text.push_str("created_schema:")?;
            push_quoted(text, name.as_str())?;
        }
        Kind::CreatedTable { schema, name } => {
            text.push_str("created_table:")?;
            push_quoted(text, schema.as_str())?;
            text.push('.')?;
            push_quoted(text, name.as_str())?;
        }
        Kind::InsertedInto { table } => push_id(text, "inserted_into_table:", *table)?,
        Kind::DeletedFrom { table } => push_id(text, "deleted_from_table:", *table)?,
        Kind::Compacted { table } => push_id(text, "compacted_table:", *table)?,
        Kind::DroppedSchema { id, .. } => push_id(text, "dropped_schema:", *id)?,
        Kind::DroppedTable { table } => push_id(text, "dropped_table:", *table)?,
        Kind::Altered { table } => push_id(text, "altered_table:", *table)?,
    }
    Ok(())
}

fn push_id(text: &mut String, word: &str, id: u64) -> Result<(), AllocError>
    ensures { OnOk result (string_bytes text.new ≡ string_bytes text.old ++ (word.now ++ decimal id)) }
{
    text.push_str(word)?;
    write!(text, "{id}")
}
