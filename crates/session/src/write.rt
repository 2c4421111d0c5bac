ghost use Rattle.std.specs.Prelude.{◌≡◌, ◌≢◌, false, true, IfErr, IfOk, OnErr, Some};
ghost use Rattle.std.specs.Prelude.{ℕ};
ghost use Rattle.txn_buf.specs.Keeping.{txn_of, view_of};
ghost use Rattle.txn_buf.specs.Sizes.{IsSizedStmt};
ghost use Rattle.txn_buf.specs.Turns.{Does, IsSameTxn, Refuses, StandsFor};
ghost use Rattle.txn_buf.specs.declared.no.TxnNo.TheVariants.{Memory};
ghost use Rattle.session.specs.Held.{IsGood, IsGoodIn, number_of, open_of, opened_in, own_of};
ghost use Rattle.session.specs.Turns.{IsTurnFor, is_fault, is_written};

use crate::replies::{only, refusal};
use crate::session::Session;
use file_disk::Held;
use lake_model::{Answer, Reply};
use lake_types::Stmt;
use std::alloc::Global;
use txn_buf::{TxnBuf, TxnNo};

/// Adds to the transaction what the statement plans.
fn add<F: Held>(alloc: Global, buf: &mut TxnBuf<F>, stmt: &Stmt) -> Result<Answer, TxnNo>
    requires written { is_written stmt.now ≡ true }
    requires stands { StandsFor F.name buf.old }
    requires sized { IsSizedStmt stmt.now }
    ensures stands { StandsFor F.name buf.new }
    ensures done { IfOk result (Does F.name buf.old stmt.now buf.new) }
    ensures spares { IfOk result (λ answer. is_fault answer ≡ false) }
    ensures refused { IfErr result (λ why. why ≢ Memory → Refuses F.name buf.old stmt.now why) }
    ensures same { OnErr result ((txn_of buf.new).own ≡ (txn_of buf.old).own) }
    ensures rest { IsSameTxn buf.old buf.new }
{
    match stmt {
        Stmt::CreateSchema { name } => match buf.create_schema(alloc, name) {
            Ok(()) => Ok(Answer::Done),
            Err(why) => Err(why),
        },
        Stmt::DropSchema { name } => match buf.drop_schema(alloc, name) {
            Ok(()) => Ok(Answer::Done),
            Err(why) => Err(why),
        },
        Stmt::CreateTable { table, columns } => {
            match buf.create_table(alloc, table, columns.as_slice()) {
                Ok(()) => Ok(Answer::Done),
                Err(why) => Err(why),
            }
        }
        Stmt::DropTable { table } => match buf.drop_table(alloc, table) {
            Ok(()) => Ok(Answer::Done),
            Err(why) => Err(why),
        },
        Stmt::Insert { table, rows } => match buf.insert(alloc, table, rows.as_slice()) {
            Ok(n) => Ok(Answer::Number { n }),
            Err(why) => Err(why),
        },
        _ => unreachable!(),
    }
}

/// Answers a statement that adds to the transaction.
#[tactic(auto, using(crate::proofs::WriteLemmas::good_done, crate::proofs::WriteLemmas::good_refused, crate::proofs::WriteLemmas::turn_done, crate::proofs::WriteLemmas::turn_refused))]
fn write_into<F: Held>(alloc: Global, buf: &mut TxnBuf<F>, stmt: &Stmt) -> Reply
    requires written { is_written stmt.now ≡ true }
    requires good { IsGood F.name buf.old }
    requires sized { IsSizedStmt stmt.now }
    ensures good { IsGood F.name buf.new }
    ensures view { view_of buf.new ≡ view_of buf.old }
    ensures spares { is_fault result.last ≡ false }
    ensures turn { (session : ℕ) → IsTurnFor (opened_in F.name F.size F.bytes (Some buf.old)) (txn_of buf.old).own
        session stmt.now result (txn_of buf.new).own }
{
    match add(alloc, buf, stmt) {
        Ok(answer) => only(alloc, answer),
        Err(why) => only(alloc, refusal(why)),
    }
}

impl<F: Held> Session<F> {
    /// CREATE SCHEMA, DROP SCHEMA, CREATE TABLE, DROP TABLE, INSERT.
    #[tactic(auto, using(crate::proofs::WriteLemmas::turn_unopened))]
    pub(crate) fn write(&mut self, alloc: Global, stmt: &Stmt) -> Reply
        requires written { is_written stmt.now ≡ true }
        requires good { IsGoodIn F.name (open_of self.old) }
        requires sized { IsSizedStmt stmt.now }
        ensures number { number_of self.new ≡ number_of self.old }
        ensures holds { opened_in F.name F.size F.bytes (open_of self.new)
            ≡ opened_in F.name F.size F.bytes (open_of self.old) }
        ensures good { IsGoodIn F.name (open_of self.new) }
        ensures spares { is_fault result.last ≡ false }
        ensures turn { IsTurnFor (opened_in F.name F.size F.bytes (open_of self.old)) (own_of self.old)
            (number_of self.old) stmt.now result (own_of self.new) }
    {
        match &mut self.open_txn {
            Some(buf) => write_into(alloc, buf, stmt),
            None => only(alloc, Answer::NoTransaction),
        }
    }
}
