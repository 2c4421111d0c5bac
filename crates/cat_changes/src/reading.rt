ghost use Rattle.std.specs.Prelude.{◌≡◌, ◌≢◌, ◌++◌, ◌∷◌, ◌<◌, ◌^◌, ℕ, None, true, decimal, IfOk, IfErr, IfSome, codes};
ghost use Rattle.cat_changes.specs.declared.fault.BadChanges.TheVariants.{Memory};
ghost use Rattle.lake_types.specs.Kinds.{SaysWith};
ghost use Rattle.cat_changes.specs.Changes.{SaysNothingWith, HasCause};
ghost use Rattle.cat_changes.specs.Reading as spec;

use crate::fault::BadChanges;
use crate::names::with_names;
use crate::order::may_follow;
use crate::quotes::{behind, cut, quoted_at};
use itoa::Buffer;
use lake_types::{Kind, KindList, Listed, SchemaNames, Words};
use std::alloc::{AllocError, Global};

/// The kinds that a text says, with the names of the dropped schemas from a list: the inverse of
/// `changes_text`. The whole text is read before the first name is looked up.
pub fn read_changes(
    alloc: Global,
    text: &str,
    schemas: &SchemaNames,
) -> Result<KindList, BadChanges>
    ensures ok { IfOk result (λ kinds. SaysWith schemas.now text.now kinds) }
    ensures cause { IfErr result (λ fault. HasCause schemas.now text.now fault) }
    ensures none { IfErr result (λ fault. fault ≢ Memory → SaysNothingWith schemas.now text.now) }
{
    let kinds = kinds_of(alloc, text)?;
    with_names(alloc, kinds, schemas.as_slice())
}

/// The kinds that a text says, where a dropped schema has no name yet.
fn kinds_of(alloc: Global, text: &str) -> Result<KindList, BadChanges>
    ensures { spec.ReadsText text.now result }
{
    let mut kinds = Vec::new(alloc);
    if text.is_empty() {
        return Ok(Listed::from_vec(kinds));
    }
    let mut rest = text;
    loop {
        let wrong = BadChanges::Text {
            at: text.len().saturating_sub(rest.len()) as u64,
        };
        let Some((kind, tail)) = kind_at(alloc, rest)? else {
            return Err(wrong);
        };
        if !may_follow(kinds.as_slice(), &kind) {
            return Err(wrong);
        }
        kinds.push(kind)?;
        let Some(more) = tail else {
            return Ok(Listed::from_vec(kinds));
        };
        rest = more;
    }
}

/// The kind at the front of the text, which ends there or at a comma, and what stands behind the comma.
fn kind_at<'a>(alloc: Global, text: &'a str) -> Result<Option<(Kind, Option<&'a str>)>, AllocError>
    ensures { IfOk result (λ found. spec.IsKindAt text.now found) }
{
    let Some((word, rest)) = cut(text, ':') else {
        return Ok(None);
    };
    match word {
        "created_schema" => created_schema(alloc, rest),
        "created_table" => created_table(alloc, rest),
        _ => Ok(kind_with_id(alloc, word, rest)),
    }
}

/// What stands behind a comma at the front, or nothing where the text is at its end.
fn tail_at(text: &str) -> Option<Option<&str>>
    ensures { spec.IsTail text.now result }
{
    if text.is_empty() {
        return Some(None);
    }
    let rest = behind(text, ',')?;
    Some(Some(rest))
}

fn created_schema<'a>(
    alloc: Global,
    text: &'a str,
) -> Result<Option<(Kind, Option<&'a str>)>, AllocError>
    ensures { IfOk result (λ found.
        spec.IsKindAmong spec.is_created_schema (codes "created_schema:" ++ text.now) found) }
{
    let Some((name, rest)) = quoted_at(alloc, text)? else {
        return Ok(None);
    };
    let Some(tail) = tail_at(rest) else {
        return Ok(None);
    };
    Ok(Some((Kind::CreatedSchema { name }, tail)))
}

fn created_table<'a>(
    alloc: Global,
    text: &'a str,
) -> Result<Option<(Kind, Option<&'a str>)>, AllocError>
    ensures { IfOk result (λ found.
        spec.IsKindAmong spec.is_created_table (codes "created_table:" ++ text.now) found) }
{
    let Some((schema, rest)) = quoted_at(alloc, text)? else {
        return Ok(None);
    };
    let Some(rest) = behind(rest, '.') else {
        return Ok(None);
    };
    let Some((name, rest)) = quoted_at(alloc, rest)? else {
        return Ok(None);
    };
    let Some(tail) = tail_at(rest) else {
        return Ok(None);
    };
    Ok(Some((Kind::CreatedTable { schema, name }, tail)))
}

/// The kind of this word that stands by an id. A dropped schema gets its name later.
fn kind_with_id<'a>(alloc: Global, word: &str, text: &'a str) -> Option<(Kind, Option<&'a str>)>
    requires { spec.lacks 58 word.now ≡ true }
    ensures { spec.IsKindAmong spec.has_id (word.now ++ 58 ∷ text.now) result }
{
    let (id, tail) = id_at(text)?;
    let kind = match word {
        "inserted_into_table" => Kind::InsertedInto { table: id },
        "deleted_from_table" => Kind::DeletedFrom { table: id },
        "compacted_table" => Kind::Compacted { table: id },
        "dropped_schema" => Kind::DroppedSchema {
            id,
            name: Words::from_string(String::new(alloc)),
        },
        "dropped_table" => Kind::DroppedTable { table: id },
        "altered_table" => Kind::Altered { table: id },
        _ => return None,
    };
    Some((kind, tail))
}

fn id_at(text: &str) -> Option<(u64, Option<&str>)>
    ensures { spec.IsIdAt text.now result }
{
    match cut(text, ',') {
        Some((digits, rest)) => Some((id_of(digits)?, Some(rest))),
        None => Some((id_of(text)?, None)),
    }
}

/// The id with this text. Other spellings of a number parse too, so the text is compared with the one that is
/// printed.
fn id_of(digits: &str) -> Option<u64>
    ensures some { IfSome result (λ id. decimal id ≡ digits.now) }
    ensures none { result ≡ None → (id : ℕ) → id < 2 ^ 64 → decimal id ≢ digits.now }
{
    let Ok(id) = digits.parse::<u64>() else {
        return None;
    };
    if Buffer::new().format(id) == digits {
        Some(id)
    } else {
        None
    }
}
