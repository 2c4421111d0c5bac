ghost use Rattle.std.specs.Prelude.{◌≡◌};
ghost use Rattle.stmt_reader.specs.Lines as lines;
ghost use Rattle.stmt_reader.specs.Rules as spec;
ghost use Rattle.stmt_grammar.specs.Grammar.{read};
ghost use Rattle.stmt_grammar.specs.Places.{ended};
ghost use Rattle.stmt_grammar.specs.Reads.{Reads};

use crate::numbers::session_of;
use crate::statement::stmt;
use lake_types::Stmt;
use lake_types::limits::MAX_LINE_BYTES;
use std::alloc::Global;
use stmt_grammar::{Cursor, Stop};
use stmt_tokens::{Cut, Kind, Sign, Token, cut_of, first_number};
use thiserror::Error;

/// Why a line says nothing. The session is that of the line's first token where this is a valid one,
/// else 0.
#[derive(Clone, Copy, Debug, PartialEq, Eq, Error)]
pub enum LineNo {
    #[error("line too long")]
    TooLong { session: u8 },
    /// The offset of the first token with which no line goes on, or the line's length where more must follow.
    #[error("syntax at {at}")]
    Syntax { session: u8, at: u64 },
    #[error("no memory")]
    Memory,
}

/// Why tokens are no line: so many stand before the wrong one, or want of memory.
#[derive(Clone, Copy)]
pub enum Fault {
    WrongAt(usize),
    NoMemory,
}

/// The session of a line: that of its first token where this is a valid one, else 0. It takes no memory, and the
/// line may be longer than a line may be.
pub fn session_of_line(line: &[u8]) -> u8
    ensures { result ≡ lines.session_at line.now }
{
    match first_number(line) {
        Some(number) => session_named(number),
        None => 0,
    }
}

fn session_named(number: &[u8]) -> u8
    ensures { result ≡ lines.session_named (Some number.now) }
{
    match session_of(number) {
        Some(session) => session,
        None => 0,
    }
}

#[tactic(auto, unfolding(stmt_grammar::specs::Phrases::is))]
fn session(tokens: &mut Cursor<'_>) -> Result<u8, Stop>
    ensures { Reads (read spec.session tokens.old.rest.now) result tokens.new.rest.now }
{
    let [token, more @ ..] = tokens.rest else {
        return Err(Stop::Wrong);
    };
    if !matches!(token.kind, Kind::Number) {
        return Err(Stop::Wrong);
    }
    match session_of(token.text.as_str().as_bytes()) {
        Some(number) => {
            tokens.rest = more;
            Ok(number)
        }
        None => Err(Stop::Wrong),
    }
}

#[tactic(auto, unfolding(crate::specs::Rules::line))]
fn front(alloc: Global, tokens: &mut Cursor<'_>) -> Result<(u8, Stmt), Stop>
    ensures { Reads (read spec.line tokens.old.rest.now) result tokens.new.rest.now }
{
    let number = session(tokens)?;
    let stmt = stmt(alloc, tokens)?;
    if tokens.sees_sign(Sign::Semicolon) {
        tokens.expect_sign(Sign::Semicolon)?;
    }
    Ok((number, stmt))
}

fn line_of(alloc: Global, tokens: &[Token]) -> Result<(u8, Stmt), Fault>
    ensures { lines.Gives (ended tokens.now (read spec.line tokens.now)) result }
{
    let mut cursor = Cursor { rest: tokens };
    match front(alloc, &mut cursor) {
        Ok(found) => {
            if cursor.rest.is_empty() {
                Ok(found)
            } else {
                Err(Fault::WrongAt(tokens.len().saturating_sub(cursor.rest.len())))
            }
        }
        Err(Stop::Wrong) => Err(Fault::WrongAt(tokens.len().saturating_sub(cursor.rest.len()))),
        Err(Stop::Memory) => Err(Fault::NoMemory),
    }
}

/// What tokens say, or how many stand before the wrong one.
#[tactic(auto, using(crate::proofs::LineAnswer::answered))]
fn read_tokens(alloc: Global, tokens: &[Token]) -> Result<(u8, Stmt), Fault>
    ensures { lines.TokensAnswer tokens.now result }
{
    let found = line_of(alloc, tokens);
    found
}

/// The fault, with its session and its place in the line.
fn located(line: &[u8], places: &[usize], fault: Fault) -> LineNo
    ensures { result ≡ lines.located line.now places.now fault }
{
    let session = session_of_line(line);
    match fault {
        Fault::WrongAt(n) => match places.get(n) {
            Some(at) => LineNo::Syntax {
                session,
                at: *at as u64,
            },
            None => LineNo::Syntax {
                session,
                at: line.len() as u64,
            },
        },
        Fault::NoMemory => LineNo::Memory,
    }
}

#[tactic(auto, unfolding(stmt_tokens::specs::Tokens::cut_of), using(crate::proofs::LineAnswer::located_fault))]
fn line_answer(alloc: Global, line: &[u8]) -> Result<(u8, Stmt), LineNo>
    ensures { lines.LineAnswers line.now result }
{
    if line.len() > MAX_LINE_BYTES {
        return Err(LineNo::TooLong {
            session: session_of_line(line),
        });
    }
    let Ok(Cut { tokens, places }) = cut_of(alloc, line) else {
        return Err(LineNo::Memory);
    };
    match read_tokens(alloc, tokens.as_slice()) {
        Ok(said) => Ok(said),
        Err(fault) => Err(located(line, places.as_slice(), fault)),
    }
}

/// The session and the statement of a line, which stands without its line feed and a carriage return
/// before it. A fault has the offset of the first token with which no line goes on.
#[tactic(auto, using(crate::proofs::AnswerLemmas::answers))]
pub fn read_line(alloc: Global, line: &[u8]) -> Result<(u8, Stmt), LineNo>
    ensures exact { lines.LineAnswers line.now result }
    ensures total { lines.IsAnswer line.now result }
{
    let answer = line_answer(alloc, line);
    answer
}
