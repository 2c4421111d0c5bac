ghost use Rattle.std.specs.Prelude.{◌≡◌};
ghost use Rattle.stmt_reader.specs.Rules as spec;
ghost use Rattle.stmt_grammar.specs.Grammar.{read};
ghost use Rattle.stmt_grammar.specs.Phrases as phrases;
ghost use Rattle.stmt_grammar.specs.Reads.{Reads};

use crate::literals::literal;
use crate::names::name;
use lake_types::limits::MAX_NESTING;
use lake_types::{Op, Pred, PredList, Value};
use sqlite_items::{Boxed, Items};
use std::alloc::Global;
use stmt_grammar::{Cursor, Stop};
use stmt_tokens::{Keyword, Kind, Sign};

fn op_of(kind: Kind) -> Option<Op>
    ensures { result ≡ spec.op_of kind }
{
    match kind {
        Kind::Sign(Sign::Eq) => Some(Op::Eq),
        Kind::Sign(Sign::Ne) => Some(Op::Ne),
        Kind::Sign(Sign::Lt) => Some(Op::Lt),
        Kind::Sign(Sign::Le) => Some(Op::Le),
        Kind::Sign(Sign::Gt) => Some(Op::Gt),
        Kind::Sign(Sign::Ge) => Some(Op::Ge),
        _ => None,
    }
}

#[tactic(auto, unfolding(crate::specs::Rules::operator))]
fn operator(tokens: &mut Cursor<'_>) -> Result<Op, Stop>
    ensures { Reads (read spec.operator tokens.old.rest.now) result tokens.new.rest.now }
{
    match tokens.rest {
        [token, more @ ..] => match op_of(token.kind) {
            Some(op) => {
                tokens.rest = more;
                Ok(op)
            }
            None => Err(Stop::Wrong),
        },
        [] => Err(Stop::Wrong),
    }
}

#[tactic(auto, unfolding(crate::specs::Rules::comparison))]
fn comparison(alloc: Global, tokens: &mut Cursor<'_>) -> Result<(Op, Value), Stop>
    ensures { Reads (read spec.comparison tokens.old.rest.now) result tokens.new.rest.now }
{
    let op = operator(tokens)?;
    let value = literal(alloc, tokens)?;
    Ok((op, value))
}

#[tactic(auto, unfolding(crate::specs::Rules::nullness))]
fn nullness(tokens: &mut Cursor<'_>) -> Result<bool, Stop>
    ensures { Reads (read spec.nullness tokens.old.rest.now) result tokens.new.rest.now }
{
    tokens.expect(Keyword::Is)?;
    let not = tokens.sees(Keyword::Not);
    if not {
        tokens.expect(Keyword::Not)?;
    }
    tokens.expect(Keyword::Null)?;
    Ok(not)
}

#[tactic(auto, unfolding(crate::specs::Rules::simple_test, crate::specs::Rules::nullness))]
fn simple_test(alloc: Global, tokens: &mut Cursor<'_>) -> Result<Pred, Stop>
    ensures { Reads (read spec.simple_test tokens.old.rest.now) result tokens.new.rest.now }
{
    let name = name(alloc, tokens)?;
    if tokens.sees(Keyword::Is) {
        if nullness(tokens)? {
            Ok(Pred::NotNull { name })
        } else {
            Ok(Pred::IsNull { name })
        }
    } else {
        let (op, value) = comparison(alloc, tokens)?;
        Ok(Pred::Compare { name, op, value })
    }
}

fn and_of(mut parts: PredList) -> Pred
    ensures { result ≡ spec.and_of parts }
{
    if parts.len() == 1 {
        parts.remove(0)
    } else {
        Pred::And(parts)
    }
}

fn or_of(mut parts: PredList) -> Pred
    ensures { result ≡ spec.or_of parts }
{
    if parts.len() == 1 {
        parts.remove(0)
    } else {
        Pred::Or(parts)
    }
}

/// A test, in which so many more parentheses and NOTs may be opened.
#[cycle(predicate)]
#[tactic(auto, unfolding(crate::specs::Rules::unary))]
fn unary(alloc: Global, tokens: &mut Cursor<'_>, depth: usize) -> Result<Pred, Stop>
    ensures { Reads (read (spec.unary depth) tokens.old.rest.now) result tokens.new.rest.now }
{
    if depth == 0 {
        return simple_test(alloc, tokens);
    }
    if tokens.sees(Keyword::Not) {
        tokens.expect(Keyword::Not)?;
        let part = unary(alloc, tokens, depth - 1)?;
        return Ok(Pred::Not(Boxed::new(alloc, part)?));
    }
    if tokens.sees_sign(Sign::LeftParen) {
        tokens.expect_sign(Sign::LeftParen)?;
        let inner = any(alloc, tokens, depth - 1)?;
        tokens.expect_sign(Sign::RightParen)?;
        return Ok(inner);
    }
    let test = simple_test(alloc, tokens)?;
    Ok(test)
}

#[cycle(predicate)]
#[tactic(auto, using(stmt_grammar::proofs::ListSteps::list_steps))]
fn and_parts(alloc: Global, tokens: &mut Cursor<'_>, depth: usize) -> Result<PredList, Stop>
    ensures { Reads (read (phrases.chain (Kind.Keyword Keyword.And) (spec.unary depth)) tokens.old.rest.now) result tokens.new.rest.now }
{
    let mut parts = Items::new(alloc);
    parts.push(unary(alloc, tokens, depth)?)?;
    for _turn in 0..tokens.rest.len() {
        if !tokens.sees(Keyword::And) {
            return Ok(parts);
        }
        tokens.expect(Keyword::And)?;
        parts.push(unary(alloc, tokens, depth)?)?;
    }
    Ok(parts)
}

#[cycle(predicate)]
#[tactic(auto, unfolding(crate::specs::Rules::ands))]
fn all(alloc: Global, tokens: &mut Cursor<'_>, depth: usize) -> Result<Pred, Stop>
    ensures { Reads (read (spec.ands (spec.unary depth)) tokens.old.rest.now) result tokens.new.rest.now }
{
    let parts = and_parts(alloc, tokens, depth)?;
    Ok(and_of(parts))
}

#[cycle(predicate)]
#[tactic(auto, using(stmt_grammar::proofs::ListSteps::list_steps))]
fn or_parts(alloc: Global, tokens: &mut Cursor<'_>, depth: usize) -> Result<PredList, Stop>
    ensures { Reads (read (phrases.chain (Kind.Keyword Keyword.Or) (spec.ands (spec.unary depth))) tokens.old.rest.now) result tokens.new.rest.now }
{
    let mut parts = Items::new(alloc);
    parts.push(all(alloc, tokens, depth)?)?;
    for _turn in 0..tokens.rest.len() {
        if !tokens.sees(Keyword::Or) {
            return Ok(parts);
        }
        tokens.expect(Keyword::Or)?;
        parts.push(all(alloc, tokens, depth)?)?;
    }
    Ok(parts)
}

#[cycle(predicate)]
#[tactic(auto, unfolding(crate::specs::Rules::ors))]
fn any(alloc: Global, tokens: &mut Cursor<'_>, depth: usize) -> Result<Pred, Stop>
    ensures { Reads (read (spec.ors (spec.unary depth)) tokens.old.rest.now) result tokens.new.rest.now }
{
    let parts = or_parts(alloc, tokens, depth)?;
    Ok(or_of(parts))
}

/// A test of rows.
#[tactic(auto, unfolding(crate::specs::Rules::condition))]
pub fn condition(alloc: Global, tokens: &mut Cursor<'_>) -> Result<Pred, Stop>
    ensures { Reads (read spec.condition tokens.old.rest.now) result tokens.new.rest.now }
{
    any(alloc, tokens, MAX_NESTING)
}
