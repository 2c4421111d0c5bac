ghost use Rattle.std.specs.Prelude.{◌≡◌, ◌≢◌, ◌++◌, ◌∷◌, [], IfErr, OnErr, OnOk};
ghost use Rattle.lake_types.specs.declared.stmt.Stmt.TheVariants as stmt;
ghost use Rattle.lake_model.specs.Apply.{changed};
ghost use Rattle.lake_model.specs.Plans as plan;
ghost use Rattle.lake_model.specs.declared.answer.Answer.TheVariants as answer;
ghost use Rattle.txn_buf.specs.Drafts.{bare, work_of};
ghost use Rattle.txn_buf.specs.Keeping.{txn_of};
ghost use Rattle.txn_buf.specs.Turns.{Does, IsSameTxn, Refuses, StandsFor, answer_of, table_drop};
ghost use Rattle.txn_buf.specs.declared.no.TxnNo.TheVariants.{Memory};

use crate::buffer::TxnBuf;
use crate::find::named_table;
use crate::no::TxnNo;
use crate::seen::Seen;
use file_disk::Held;
use lake_model::{Change, ChangeList};
use lake_types::TableName;
use std::alloc::Global;

/// Takes a table away from those that are seen, and adds the change.
fn drop_table_in(
    alloc: Global,
    seen: &mut Seen,
    own: &mut ChangeList,
    table: &TableName,
) -> Result<(), TxnNo>
    ensures planned { OnOk result (plan.drop_table (work_of seen.old) table.now ≡ plan.Append (table_drop (work_of
        seen.old) table.now) answer.Done) }
    ensures own { OnOk result (own.new ≡ own.old ++ table_drop (work_of seen.old) table.now ∷ []) }
    ensures seen { OnOk result (work_of seen.new ≡ bare (changed (work_of seen.old) (table_drop (work_of seen.old)
        table.now))) }
    ensures refused { IfErr result (λ why. why ≢ Memory → plan.drop_table (work_of seen.old) table.now ≡ plan.Refuse
        (answer_of why)) }
    ensures same_own { OnErr result (own.new ≡ own.old) }
    ensures same_seen { OnErr result (work_of seen.new ≡ work_of seen.old) }
{
    let table = match named_table(alloc, seen, table) {
        Ok(found) => found.at,
        Err(no) => return Err(no),
    };
    own.push(Change::DropTable { table })?;
    seen.remove_table(table);
    Ok(())
}

impl<F: Held> TxnBuf<F> {
    /// Drops a table with its rows. The condition is that of `drop_schema`.
    ///
    /// `ReadOnly` and `Mixed` as there; `NoSchema` and `NoTable`, where it sees no schema or table of the name.
    pub fn drop_table(&mut self, alloc: Global, table: &TableName) -> Result<(), TxnNo>
        requires stands { StandsFor F.name self.old }
        ensures stands { StandsFor F.name self.new }
        ensures done { OnOk result (Does F.name self.old (stmt.DropTable table.now) self.new answer.Done) }
        ensures refused { IfErr result (λ why. why ≢ Memory → Refuses F.name self.old (stmt.DropTable table.now) why) }
        ensures same { OnErr result ((txn_of self.new).own ≡ (txn_of self.old).own) }
        ensures rest { IsSameTxn self.old self.new }
    {
        let mut seen = match self.begin(alloc) {
            Ok(seen) => seen,
            Err(no) => return Err(no),
        };
        let result = drop_table_in(alloc, &mut seen, &mut self.txn.own, table);
        self.tally.seen = Some(seen);
        result
    }
}
