ghost use Rattle.std.specs.Prelude.{◌≡◌, ◌≢◌, ◌++◌, ◌∷◌, [], IfErr, OnErr, OnOk};
ghost use Rattle.lake_types.specs.declared.stmt.Stmt.TheVariants as stmt;
ghost use Rattle.lake_model.specs.Apply.{changed};
ghost use Rattle.lake_model.specs.Plans as plan;
ghost use Rattle.lake_model.specs.declared.answer.Answer.TheVariants as answer;
ghost use Rattle.lake_model.specs.declared.change.Change.TheVariants as change;
ghost use Rattle.txn_buf.specs.Drafts.{bare, work_of};
ghost use Rattle.txn_buf.specs.Keeping.{txn_of};
ghost use Rattle.txn_buf.specs.Sizes.{IsSizedStmt};
ghost use Rattle.txn_buf.specs.Turns.{Does, IsSameTxn, Refuses, StandsFor, answer_of};
ghost use Rattle.txn_buf.specs.declared.no.TxnNo.TheVariants.{Memory};

use crate::buffer::TxnBuf;
use crate::no::TxnNo;
use crate::seen::{Seen, SeenSchema};
use file_disk::Held;
use lake_model::{Change, ChangeList, Ref};
use lake_types::{Copied, Words};
use std::alloc::Global;

/// Creates a schema among those that are seen, and adds the change.
fn create_schema_in(
    alloc: Global,
    seen: &mut Seen,
    own: &mut ChangeList,
    name: &Words,
) -> Result<(), TxnNo>
    ensures planned { OnOk result (plan.create_schema (work_of seen.old) name.now ≡ plan.Append (change.CreateSchema
        name.now) answer.Done) }
    ensures own { OnOk result (own.new ≡ own.old ++ change.CreateSchema name.now ∷ []) }
    ensures seen { OnOk result (work_of seen.new ≡ bare (changed (work_of seen.old) (change.CreateSchema
        name.now))) }
    ensures refused { IfErr result (λ why. why ≢ Memory → plan.create_schema (work_of seen.old) name.now ≡ plan.Refuse
        (answer_of why)) }
    ensures same_own { OnErr result (own.new ≡ own.old) }
    ensures same_seen { OnErr result (work_of seen.new ≡ work_of seen.old) }
{
    if seen.schema(name.as_str()).is_some() {
        return Err(TxnNo::NameUsed {
            name: name.copy(alloc)?,
        });
    }
    let place = seen.created_schemas;
    let Some(created) = place.checked_add(1) else {
        return Err(TxnNo::Memory);
    };
    let kept = name.copy(alloc)?;
    let name = name.copy(alloc)?;
    seen.schemas.reserve(1)?;
    own.push(Change::CreateSchema { name })?;
    seen.schemas.push_reserved(SeenSchema {
        at: Ref::New(place),
        name: kept,
    });
    seen.created_schemas = created;
    Ok(())
}

impl<F: Held> TxnBuf<F> {
    /// Adds a schema. The conditions are that the buffer stands for its own list, which it does from `new` on, and that
    /// the statement is small, which `is_sized` tells.
    ///
    /// `ReadOnly`, where the transaction only reads; `Mixed`, where it compacts; `NameUsed`, where a schema that it sees
    /// has the name.
    pub fn create_schema(&mut self, alloc: Global, name: &Words) -> Result<(), TxnNo>
        requires stands { StandsFor F.name self.old }
        requires sized { IsSizedStmt (stmt.CreateSchema name.now) }
        ensures stands { StandsFor F.name self.new }
        ensures done { OnOk result (Does F.name self.old (stmt.CreateSchema name.now) self.new answer.Done) }
        ensures refused { IfErr result (λ why. why ≢ Memory → Refuses F.name self.old (stmt.CreateSchema name.now)
            why) }
        ensures same { OnErr result ((txn_of self.new).own ≡ (txn_of self.old).own) }
        ensures rest { IsSameTxn self.old self.new }
    {
        let mut seen = match self.begin(alloc) {
            Ok(seen) => seen,
            Err(no) => return Err(no),
        };
        let result = create_schema_in(alloc, &mut seen, &mut self.txn.own, name);
        self.tally.seen = Some(seen);
        result
    }
}
