ghost use Rattle.std.specs.Prelude.{◌≡◌, IfOk};
ghost use Rattle.stmt_reader.specs.Lines.{Says};
ghost use Rattle.stmt_text.specs.Laws.{IsAnswered};
ghost use Rattle.stmt_text.specs.Printable.{IsPrintable};
ghost use Rattle.stmt_text.specs.Printed.{printed};
ghost use Rattle.stmt_tokens.specs.Spelled.{spelled};

use crate::draft::Draft;
use crate::names::put_number;
use crate::statement::put_stmt;
use lake_types::{NoMemory, Stmt, Words};
use std::alloc::Global;
use stmt_tokens::spell;

/// The line that says a session's statement, without a line feed. Where it is no longer than a line may be,
/// its answer is this session and statement.
#[tactic(auto, using(crate::proofs::AnswerLemmas::printing))]
pub fn print(alloc: Global, session: u8, stmt: &Stmt) -> Result<Words, NoMemory>
    requires { IsPrintable session stmt.now }
    ensures text { IfOk result (λ line. line ≡ spelled (printed session stmt.now)) }
    ensures says { IfOk result (λ line. Says line (session, stmt.now)) }
    ensures again { IfOk result (λ line. IsAnswered line (session, stmt.now)) }
{
    let mut line = Draft::new(alloc);
    put_number(alloc, &mut line, u64::from(session))?;
    put_stmt(alloc, &mut line, stmt)?;
    spell(alloc, line.tokens.as_slice())
}
