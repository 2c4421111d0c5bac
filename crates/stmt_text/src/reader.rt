ghost use Rattle.std.specs.Prelude.{◌≡◌, IfOk};
ghost use Rattle.stmt_reader.specs.Lines.{IsAnswer, LineAnswers};
ghost use Rattle.stmt_text.specs.Printable.{IsPrintable};

use lake_types::Stmt;
use std::alloc::Global;
use stmt_reader::LineNo;

/// The session and the statement of a line, which stands without its line feed and a carriage return before it. They
/// can be printed.
#[tactic(auto, using(crate::proofs::Said::printing))]
pub fn read_line(alloc: Global, line: &[u8]) -> Result<(u8, Stmt), LineNo>
    ensures exact { LineAnswers line.now result }
    ensures total { IsAnswer line.now result }
    ensures printable { IfOk result (λ said. IsPrintable said.0 said.1) }
{
    let answer = stmt_reader::read_line(alloc, line);
    answer
}
