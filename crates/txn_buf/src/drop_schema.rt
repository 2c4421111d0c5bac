ghost use Rattle.std.specs.Prelude.{◌≡◌, ◌≢◌, ◌++◌, ◌∷◌, [], IfErr, OnErr, OnOk};
ghost use Rattle.lake_types.specs.declared.stmt.Stmt.TheVariants as stmt;
ghost use Rattle.lake_model.specs.Apply.{changed};
ghost use Rattle.lake_model.specs.Plans as plan;
ghost use Rattle.lake_model.specs.declared.answer.Answer.TheVariants as answer;
ghost use Rattle.txn_buf.specs.Drafts.{bare, work_of};
ghost use Rattle.txn_buf.specs.Keeping.{txn_of};
ghost use Rattle.txn_buf.specs.Turns.{Does, IsSameTxn, Refuses, StandsFor, answer_of, schema_drop};
ghost use Rattle.txn_buf.specs.declared.no.TxnNo.TheVariants.{Memory};

use crate::buffer::TxnBuf;
use crate::no::TxnNo;
use crate::seen::Seen;
use file_disk::Held;
use lake_model::{Change, ChangeList};
use lake_types::{Copied, Words};
use std::alloc::Global;

/// Takes a schema without tables away from those that are seen, and adds the change.
fn drop_schema_in(
    alloc: Global,
    seen: &mut Seen,
    own: &mut ChangeList,
    name: &Words,
) -> Result<(), TxnNo>
    ensures planned { OnOk result (plan.drop_schema (work_of seen.old) name.now ≡ plan.Append (schema_drop (work_of
        seen.old) name.now) answer.Done) }
    ensures own { OnOk result (own.new ≡ own.old ++ schema_drop (work_of seen.old) name.now ∷ []) }
    ensures seen { OnOk result (work_of seen.new ≡ bare (changed (work_of seen.old) (schema_drop (work_of seen.old)
        name.now))) }
    ensures refused { IfErr result (λ why. why ≢ Memory → plan.drop_schema (work_of seen.old) name.now ≡ plan.Refuse
        (answer_of why)) }
    ensures same_own { OnErr result (own.new ≡ own.old) }
    ensures same_seen { OnErr result (work_of seen.new ≡ work_of seen.old) }
{
    let Some(schema) = seen.schema(name.as_str()) else {
        return Err(TxnNo::NoSchema {
            name: name.copy(alloc)?,
        });
    };
    if seen.has_tables(schema) {
        return Err(TxnNo::NotEmpty {
            name: name.copy(alloc)?,
        });
    }
    own.push(Change::DropSchema { schema })?;
    seen.remove_schema(schema);
    Ok(())
}

impl<F: Held> TxnBuf<F> {
    /// Drops a schema. The condition is that the buffer stands for its own list.
    ///
    /// `ReadOnly` and `Mixed` as there; `NoSchema`, where it sees no schema of the name; `NotEmpty`, where it sees a table
    /// in that schema.
    pub fn drop_schema(&mut self, alloc: Global, name: &Words) -> Result<(), TxnNo>
        requires stands { StandsFor F.name self.old }
        ensures stands { StandsFor F.name self.new }
        ensures done { OnOk result (Does F.name self.old (stmt.DropSchema name.now) self.new answer.Done) }
        ensures refused { IfErr result (λ why. why ≢ Memory → Refuses F.name self.old (stmt.DropSchema name.now) why) }
        ensures same { OnErr result ((txn_of self.new).own ≡ (txn_of self.old).own) }
        ensures rest { IsSameTxn self.old self.new }
    {
        let mut seen = match self.begin(alloc) {
            Ok(seen) => seen,
            Err(no) => return Err(no),
        };
        let result = drop_schema_in(alloc, &mut seen, &mut self.txn.own, name);
        self.tally.seen = Some(seen);
        result
    }
}
