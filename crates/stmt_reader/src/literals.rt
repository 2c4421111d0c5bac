ghost use Rattle.std.specs.Prelude.{◌≡◌, IfOk};
ghost use Rattle.stmt_reader.specs.Rules as spec;
ghost use Rattle.stmt_grammar.specs.Grammar.{read};
ghost use Rattle.stmt_grammar.specs.Reads.{Reads};

use crate::numbers::{integer_of, unhex};
use lake_types::{BadValue, Blob, ColType, Copied, Value, value_of};
use std::alloc::{AllocError, Global};
use stmt_grammar::{Cursor, Stop};
use stmt_tokens::{Keyword, Kind};

#[tactic(auto, unfolding(stmt_grammar::specs::Phrases::is))]
fn number(tokens: &mut Cursor<'_>) -> Result<Value, Stop>
    ensures { Reads (read spec.number tokens.old.rest.now) result tokens.new.rest.now }
{
    let [token, more @ ..] = tokens.rest else {
        return Err(Stop::Wrong);
    };
    if !matches!(token.kind, Kind::Number) {
        return Err(Stop::Wrong);
    }
    match integer_of(token.text.as_str().as_bytes()) {
        Some(number) => {
            tokens.rest = more;
            Ok(Value::Int(number))
        }
        None => Err(Stop::Wrong),
    }
}

#[tactic(auto, unfolding(stmt_grammar::specs::Phrases::is))]
fn text(alloc: Global, tokens: &mut Cursor<'_>) -> Result<Value, Stop>
    ensures { Reads (read spec.text tokens.old.rest.now) result tokens.new.rest.now }
{
    let [token, more @ ..] = tokens.rest else {
        return Err(Stop::Wrong);
    };
    if !matches!(token.kind, Kind::Text) {
        return Err(Stop::Wrong);
    }
    let text = token.text.copy(alloc)?;
    tokens.rest = more;
    Ok(Value::Text(text))
}

#[tactic(auto, unfolding(stmt_grammar::specs::Phrases::is))]
fn bytes(alloc: Global, tokens: &mut Cursor<'_>) -> Result<Value, Stop>
    ensures { Reads (read spec.bytes tokens.old.rest.now) result tokens.new.rest.now }
{
    let [token, more @ ..] = tokens.rest else {
        return Err(Stop::Wrong);
    };
    if !matches!(token.kind, Kind::Bytes) {
        return Err(Stop::Wrong);
    }
    let bytes = unhex(alloc, token.text.as_str().as_bytes())?;
    let bytes = Blob::of(alloc, bytes.as_slice())?;
    tokens.rest = more;
    Ok(Value::Bytes(bytes))
}

/// The day with this text, where there is one.
#[tactic(auto, using(crate::proofs::DateLemmas::days))]
fn day_of(alloc: Global, text: &str) -> Result<Option<Value>, AllocError>
    ensures { IfOk result (λ day. day ≡ spec.day_of text.now) }
{
    match value_of(alloc, ColType::Date, text) {
        Ok(day) => Ok(Some(day)),
        Err(BadValue::Text) => Ok(None),
        Err(BadValue::Memory) => Err(AllocError),
    }
}

/// The text behind DATE.
#[tactic(auto, unfolding(stmt_grammar::specs::Phrases::is))]
fn day(alloc: Global, tokens: &mut Cursor<'_>) -> Result<Value, Stop>
    ensures { Reads (read spec.day tokens.old.rest.now) result tokens.new.rest.now }
{
    let [token, more @ ..] = tokens.rest else {
        return Err(Stop::Wrong);
    };
    if !matches!(token.kind, Kind::Text) {
        return Err(Stop::Wrong);
    }
    match day_of(alloc, token.text.as_str())? {
        Some(day) => {
            tokens.rest = more;
            Ok(day)
        }
        None => Err(Stop::Wrong),
    }
}

fn constant_of(kind: Kind) -> Option<Value>
    ensures { result ≡ spec.constant_of kind }
{
    match kind {
        Kind::Keyword(Keyword::Null) => Some(Value::Null),
        Kind::Keyword(Keyword::True) => Some(Value::Bool(true)),
        Kind::Keyword(Keyword::False) => Some(Value::Bool(false)),
        _ => None,
    }
}

fn constant(tokens: &mut Cursor<'_>) -> Result<Value, Stop>
    ensures { Reads (read spec.constant tokens.old.rest.now) result tokens.new.rest.now }
{
    match tokens.rest {
        [token, more @ ..] => match constant_of(token.kind) {
            Some(value) => {
                tokens.rest = more;
                Ok(value)
            }
            None => Err(Stop::Wrong),
        },
        [] => Err(Stop::Wrong),
    }
}

#[tactic(auto, unfolding(crate::specs::Rules::literal))]
pub fn literal(alloc: Global, tokens: &mut Cursor<'_>) -> Result<Value, Stop>
    ensures { Reads (read spec.literal tokens.old.rest.now) result tokens.new.rest.now }
{
    if tokens.sees_kind(Kind::Number) {
        return number(tokens);
    }
    if tokens.sees_kind(Kind::Text) {
        return text(alloc, tokens);
    }
    if tokens.sees_kind(Kind::Bytes) {
        return bytes(alloc, tokens);
    }
    if tokens.sees(Keyword::Date) {
        tokens.expect(Keyword::Date)?;
        return day(alloc, tokens);
    }
    constant(tokens)
}
