ghost use Rattle.std.specs.Prelude.{◌≡◌};
ghost use Rattle.stmt_reader.specs.Rules as spec;
ghost use Rattle.stmt_grammar.specs.Grammar.{read};
ghost use Rattle.stmt_grammar.specs.Phrases as phrases;
ghost use Rattle.stmt_grammar.specs.Reads.{Reads};

use crate::literals::literal;
use lake_types::{ColType, ColumnDef, ColumnDefs, Copied, Listed, TableName, Value, Words};
use std::alloc::Global;
use stmt_grammar::{Cursor, Stop};
use stmt_tokens::{Keyword, Kind, Sign};

fn is_reserved(keyword: Keyword) -> bool
    ensures { result ≡ spec.is_reserved keyword }
{
    matches!(
        keyword,
        Keyword::And
            | Keyword::Default
            | Keyword::False
            | Keyword::From
            | Keyword::Is
            | Keyword::Not
            | Keyword::Null
            | Keyword::Or
            | Keyword::RowId
            | Keyword::Select
            | Keyword::Set
            | Keyword::Table
            | Keyword::To
            | Keyword::True
            | Keyword::Values
            | Keyword::Where
    )
}

fn is_name(kind: Kind) -> bool
    ensures { result ≡ spec.is_name kind }
{
    match kind {
        Kind::Quoted | Kind::Word => true,
        Kind::Keyword(keyword) => !is_reserved(keyword),
        _ => false,
    }
}

#[tactic(auto, unfolding(crate::specs::Rules::name))]
pub fn name(alloc: Global, tokens: &mut Cursor<'_>) -> Result<Words, Stop>
    ensures { Reads (read spec.name tokens.old.rest.now) result tokens.new.rest.now }
{
    match tokens.rest {
        [token, more @ ..] => {
            if is_name(token.kind) {
                let name = token.text.copy(alloc)?;
                tokens.rest = more;
                Ok(name)
            } else {
                Err(Stop::Wrong)
            }
        }
        [] => Err(Stop::Wrong),
    }
}

#[tactic(auto, unfolding(crate::specs::Rules::table))]
pub fn table(alloc: Global, tokens: &mut Cursor<'_>) -> Result<TableName, Stop>
    ensures { Reads (read spec.table tokens.old.rest.now) result tokens.new.rest.now }
{
    let first = name(alloc, tokens)?;
    if tokens.sees_sign(Sign::Dot) {
        tokens.expect_sign(Sign::Dot)?;
        let table = name(alloc, tokens)?;
        Ok(TableName {
            schema: first,
            table,
        })
    } else {
        Ok(TableName {
            schema: Words::of(alloc, "main")?,
            table: first,
        })
    }
}

fn type_of(kind: Kind) -> Option<ColType>
    ensures { result ≡ spec.type_of kind }
{
    match kind {
        Kind::Keyword(Keyword::Boolean) => Some(ColType::Bool),
        Kind::Keyword(Keyword::TinyInt) => Some(ColType::Int8),
        Kind::Keyword(Keyword::SmallInt) => Some(ColType::Int16),
        Kind::Keyword(Keyword::Integer) => Some(ColType::Int32),
        Kind::Keyword(Keyword::BigInt) => Some(ColType::Int64),
        Kind::Keyword(Keyword::Varchar) => Some(ColType::Varchar),
        Kind::Keyword(Keyword::Blob) => Some(ColType::Blob),
        Kind::Keyword(Keyword::Date) => Some(ColType::Date),
        _ => None,
    }
}

#[tactic(auto, unfolding(crate::specs::Rules::column_type))]
pub fn column_type(tokens: &mut Cursor<'_>) -> Result<ColType, Stop>
    ensures { Reads (read spec.column_type tokens.old.rest.now) result tokens.new.rest.now }
{
    match tokens.rest {
        [token, more @ ..] => match type_of(token.kind) {
            Some(ty) => {
                tokens.rest = more;
                Ok(ty)
            }
            None => Err(Stop::Wrong),
        },
        [] => Err(Stop::Wrong),
    }
}

/// Whether NOT NULL is left out.
#[tactic(auto, unfolding(crate::specs::Rules::nulls))]
fn nulls(tokens: &mut Cursor<'_>) -> Result<bool, Stop>
    ensures { Reads (read spec.nulls tokens.old.rest.now) result tokens.new.rest.now }
{
    if tokens.sees(Keyword::Not) {
        tokens.expect(Keyword::Not)?;
        tokens.expect(Keyword::Null)?;
        Ok(false)
    } else {
        Ok(true)
    }
}

#[tactic(auto, unfolding(crate::specs::Rules::default_value))]
fn default_value(alloc: Global, tokens: &mut Cursor<'_>) -> Result<Option<Value>, Stop>
    ensures { Reads (read spec.default_value tokens.old.rest.now) result tokens.new.rest.now }
{
    if tokens.sees(Keyword::Default) {
        tokens.expect(Keyword::Default)?;
        Ok(Some(literal(alloc, tokens)?))
    } else {
        Ok(None)
    }
}

#[tactic(auto, unfolding(crate::specs::Rules::column))]
pub fn column(alloc: Global, tokens: &mut Cursor<'_>) -> Result<ColumnDef, Stop>
    ensures { Reads (read spec.column tokens.old.rest.now) result tokens.new.rest.now }
{
    let name = name(alloc, tokens)?;
    let ty = column_type(tokens)?;
    let nulls = nulls(tokens)?;
    let default_value = default_value(alloc, tokens)?;
    Ok(ColumnDef {
        name,
        ty,
        nulls,
        default_value,
    })
}

#[tactic(auto, using(stmt_grammar::proofs::ListSteps::list_steps))]
fn column_list(alloc: Global, tokens: &mut Cursor<'_>) -> Result<ColumnDefs, Stop>
    ensures { Reads (read (phrases.list spec.column) tokens.old.rest.now) result tokens.new.rest.now }
{
    let mut columns = Listed::new(alloc);
    columns.push(column(alloc, tokens)?)?;
    for _turn in 0..tokens.rest.len() {
        if !tokens.sees_sign(Sign::Comma) {
            return Ok(columns);
        }
        tokens.expect_sign(Sign::Comma)?;
        columns.push(column(alloc, tokens)?)?;
    }
    Ok(columns)
}

/// The columns of a table, in parentheses.
#[tactic(auto, unfolding(crate::specs::Rules::columns))]
pub fn columns(alloc: Global, tokens: &mut Cursor<'_>) -> Result<ColumnDefs, Stop>
    ensures { Reads (read spec.columns tokens.old.rest.now) result tokens.new.rest.now }
{
    tokens.expect_sign(Sign::LeftParen)?;
    let columns = column_list(alloc, tokens)?;
    tokens.expect_sign(Sign::RightParen)?;
    Ok(columns)
}
