ghost use Rattle.std.specs.Prelude.{◌≡◌};
ghost use Rattle.stmt_reader.specs.Rules as spec;
ghost use Rattle.stmt_grammar.specs.Grammar.{first, read, starts};
ghost use Rattle.stmt_grammar.specs.Reads.{Reads};

use crate::definition::{definition, opens_definition};
use crate::names::table;
use crate::numbers::count_of;
use crate::rows::{opens_rows, rows};
use lake_types::Stmt;
use std::alloc::Global;
use stmt_grammar::{Cursor, Stop};
use stmt_tokens::{Keyword, Kind, Sign};

/// The number of a version.
#[tactic(auto, unfolding(stmt_grammar::specs::Phrases::is))]
fn count(tokens: &mut Cursor<'_>) -> Result<u64, Stop>
    ensures { Reads (read spec.count tokens.old.rest.now) result tokens.new.rest.now }
{
    let [token, more @ ..] = tokens.rest else {
        return Err(Stop::Wrong);
    };
    if !matches!(token.kind, Kind::Number) {
        return Err(Stop::Wrong);
    }
    match count_of(token.text.as_str().as_bytes()) {
        Some(n) => {
            tokens.rest = more;
            Ok(n)
        }
        None => Err(Stop::Wrong),
    }
}

#[tactic(auto, unfolding(crate::specs::Rules::begin_at))]
fn begin_at(tokens: &mut Cursor<'_>) -> Result<u64, Stop>
    ensures { Reads (read spec.begin_at tokens.old.rest.now) result tokens.new.rest.now }
{
    tokens.expect(Keyword::At)?;
    tokens.expect_sign(Sign::LeftParen)?;
    tokens.expect(Keyword::Version)?;
    tokens.expect_sign(Sign::Arrow)?;
    let n = count(tokens)?;
    tokens.expect_sign(Sign::RightParen)?;
    Ok(n)
}

#[tactic(auto, unfolding(crate::specs::Rules::begin, crate::specs::Rules::begin_at))]
fn begin(tokens: &mut Cursor<'_>) -> Result<Stmt, Stop>
    ensures { Reads (read spec.begin tokens.old.rest.now) result tokens.new.rest.now }
{
    if tokens.sees(Keyword::At) {
        let n = begin_at(tokens)?;
        Ok(Stmt::BeginAt { n })
    } else {
        Ok(Stmt::Begin)
    }
}

#[tactic(auto, unfolding(crate::specs::Rules::transaction))]
fn opens_transaction(tokens: &Cursor<'_>) -> bool
    ensures { result ≡ starts (first spec.transaction) tokens.now.rest.now }
{
    tokens.sees(Keyword::Begin) || tokens.sees(Keyword::Commit) || tokens.sees(Keyword::Rollback)
}

#[tactic(auto, unfolding(crate::specs::Rules::transaction))]
fn transaction(tokens: &mut Cursor<'_>) -> Result<Stmt, Stop>
    ensures { Reads (read spec.transaction tokens.old.rest.now) result tokens.new.rest.now }
{
    if tokens.sees(Keyword::Begin) {
        tokens.expect(Keyword::Begin)?;
        return begin(tokens);
    }
    if tokens.sees(Keyword::Commit) {
        tokens.expect(Keyword::Commit)?;
        return Ok(Stmt::Commit);
    }
    tokens.expect(Keyword::Rollback)?;
    Ok(Stmt::Rollback)
}

#[tactic(auto, unfolding(crate::specs::Rules::upkeep))]
fn upkeep(alloc: Global, tokens: &mut Cursor<'_>) -> Result<Stmt, Stop>
    ensures { Reads (read spec.upkeep tokens.old.rest.now) result tokens.new.rest.now }
{
    if tokens.sees(Keyword::Compact) {
        tokens.expect(Keyword::Compact)?;
        return Ok(Stmt::Compact {
            table: table(alloc, tokens)?,
        });
    }
    if tokens.sees(Keyword::Flush) {
        tokens.expect(Keyword::Flush)?;
        return Ok(Stmt::Flush {
            table: table(alloc, tokens)?,
        });
    }
    if tokens.sees(Keyword::Expire) {
        tokens.expect(Keyword::Expire)?;
        return Ok(Stmt::Expire { n: count(tokens)? });
    }
    if tokens.sees(Keyword::Clean) {
        tokens.expect(Keyword::Clean)?;
        return Ok(Stmt::Clean);
    }
    tokens.expect(Keyword::Snapshots)?;
    Ok(Stmt::Snapshots)
}

/// A statement.
#[tactic(auto, unfolding(crate::specs::Rules::stmt))]
pub fn stmt(alloc: Global, tokens: &mut Cursor<'_>) -> Result<Stmt, Stop>
    ensures { Reads (read spec.stmt tokens.old.rest.now) result tokens.new.rest.now }
{
    if opens_transaction(tokens) {
        return transaction(tokens);
    }
    if opens_definition(tokens) {
        return definition(alloc, tokens);
    }
    if opens_rows(tokens) {
        return rows(alloc, tokens);
    }
    upkeep(alloc, tokens)
}
