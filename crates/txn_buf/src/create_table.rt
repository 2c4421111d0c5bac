ghost use Rattle.std.specs.Prelude.{◌≡◌, ◌≢◌, ◌≤◌, ◌++◌, ◌∷◌, [], length, None, Some, IfErr, IfOk, OnErr, OnOk};
ghost use Rattle.lake_types.specs.declared.stmt.Stmt.TheVariants as stmt;
ghost use Rattle.lake_model.specs.Apply.{changed, with_table};
ghost use Rattle.lake_model.specs.Plans as plan;
ghost use Rattle.lake_model.specs.declared.answer.Answer.TheVariants as answer;
ghost use Rattle.lake_types.specs.declared.limits.TheConstants.{MAX_COLUMNS};
ghost use Rattle.lake_model.specs.declared.change.Change.TheVariants as change;
ghost use Rattle.txn_buf.specs.Drafts.{bare, created_table, work_of};
ghost use Rattle.txn_buf.specs.Keeping.{txn_of};
ghost use Rattle.txn_buf.specs.Sizes.{IsSizedStmt};
ghost use Rattle.txn_buf.specs.Turns.{Does, IsSameTxn, Refuses, StandsFor, answer_of, creation_fault_in, table_creation};
ghost use Rattle.txn_buf.specs.declared.no.TxnNo.TheVariants.{Memory};

use crate::buffer::TxnBuf;
use crate::columns::{columns_fault, new_columns};
use crate::no::TxnNo;
use crate::seen::{Seen, SeenTable};
use file_disk::Held;
use lake_model::{Change, ChangeList, Ref};
use lake_types::limits::MAX_COLUMNS;
use lake_types::{ColumnDef, Copied, NoMemory, TableName, Words};
use std::alloc::{AllocError, Global};

/// What a statement that creates a table is refused for, in a schema that is there.
fn creation_fault(
    alloc: Global,
    seen: &Seen,
    schema: Ref,
    name: &Words,
    columns: &[ColumnDef],
) -> Result<(), TxnNo>
    ensures ok { OnOk result (creation_fault_in (work_of seen.now) schema name.now columns.now ≡ None) }
    ensures few { OnOk result (length columns.now ≤ MAX_COLUMNS) }
    ensures refused { IfErr result (λ why. why ≢ Memory → creation_fault_in (work_of seen.now) schema name.now
        columns.now ≡ Some (answer_of why)) }
{
    if seen.table(schema, name.as_str()).is_some() {
        return Err(TxnNo::NameUsed {
            name: name.copy(alloc)?,
        });
    }
    if columns.len() > MAX_COLUMNS {
        return Err(TxnNo::ManyColumns);
    }
    columns_fault(alloc, columns)
}

/// A new table, the one at this place among those that were created.
fn new_table(
    alloc: Global,
    place: u64,
    schema: Ref,
    name: &Words,
    columns: &[ColumnDef],
) -> Result<SeenTable, NoMemory>
    requires { length columns.now ≤ MAX_COLUMNS }
    ensures { IfOk result (λ table. table ≡ created_table place schema name.now columns.now) }
{
    Ok(SeenTable {
        at: Ref::New(place),
        schema,
        name: name.copy(alloc)?,
        columns: new_columns(alloc, columns)?,
        next_field: columns.len() as u32 + 1,
    })
}

/// Creates a table among those that are seen, and adds the change.
fn add_table(
    alloc: Global,
    seen: &mut Seen,
    own: &mut ChangeList,
    schema: Ref,
    name: &Words,
    columns: &[ColumnDef],
) -> Result<(), NoMemory>
    requires { length columns.now ≤ MAX_COLUMNS }
    ensures own { OnOk result (own.new ≡ own.old ++ change.CreateTable schema name.now (plan.columns_from 1
        columns.now) ∷ []) }
    ensures seen { OnOk result (work_of seen.new ≡ bare (with_table (work_of seen.old) schema name.now
        (plan.columns_from 1 columns.now))) }
    ensures same_own { OnErr result (own.new ≡ own.old) }
    ensures same_seen { OnErr result (work_of seen.new ≡ work_of seen.old) }
{
    let place = seen.created_tables;
    let Some(created) = place.checked_add(1) else {
        return Err(AllocError);
    };
    let kept = new_table(alloc, place, schema, name, columns)?;
    let name = name.copy(alloc)?;
    let columns = new_columns(alloc, columns)?;
    seen.tables.reserve(1)?;
    own.push(Change::CreateTable {
        schema,
        name,
        columns,
    })?;
    seen.tables.push_reserved(kept);
    seen.created_tables = created;
    Ok(())
}

/// Creates a table in the schema that its name tells.
fn create_table_in(
    alloc: Global,
    seen: &mut Seen,
    own: &mut ChangeList,
    table: &TableName,
    columns: &[ColumnDef],
) -> Result<(), TxnNo>
    ensures planned { OnOk result (plan.create_table (work_of seen.old) table.now columns.now ≡ plan.Append
        (table_creation (work_of seen.old) table.now columns.now) answer.Done) }
    ensures own { OnOk result (own.new ≡ own.old ++ table_creation (work_of seen.old) table.now columns.now ∷ []) }
    ensures seen { OnOk result (work_of seen.new ≡ bare (changed (work_of seen.old) (table_creation (work_of
        seen.old) table.now columns.now))) }
    ensures refused { IfErr result (λ why. why ≢ Memory → plan.create_table (work_of seen.old) table.now columns.now ≡
        plan.Refuse (answer_of why)) }
    ensures same_own { OnErr result (own.new ≡ own.old) }
    ensures same_seen { OnErr result (work_of seen.new ≡ work_of seen.old) }
{
    let Some(schema) = seen.schema(table.schema.as_str()) else {
        return Err(TxnNo::NoSchema {
            name: table.schema.copy(alloc)?,
        });
    };
    match creation_fault(alloc, seen, schema, &table.table, columns) {
        Ok(()) => {}
        Err(no) => return Err(no),
    }
    match add_table(alloc, seen, own, schema, &table.table, columns) {
        Ok(()) => Ok(()),
        Err(_) => Err(TxnNo::Memory),
    }
}

impl<F: Held> TxnBuf<F> {
    /// Adds a table without rows. The conditions are those of `create_schema`.
    ///
    /// `ReadOnly` and `Mixed` as there. Then, in this order: `NoSchema`, where it sees no schema of the name; `NameUsed`,
    /// where it sees a table of the name there; `ManyColumns`; and of the first column that has a fault `NameUsed`,
    /// where one before it has its name, `WrongType`, where its default isn't of its type, or `NotNull`, where it takes
    /// no NULL and its default is given as NULL.
    pub fn create_table(
        &mut self,
        alloc: Global,
        table: &TableName,
        columns: &[ColumnDef],
    ) -> Result<(), TxnNo>
        requires stands { StandsFor F.name self.old }
        requires sized { IsSizedStmt (stmt.CreateTable table.now columns.now) }
        ensures stands { StandsFor F.name self.new }
        ensures done { OnOk result (Does F.name self.old (stmt.CreateTable table.now columns.now) self.new
            answer.Done) }
        ensures refused { IfErr result (λ why. why ≢ Memory → Refuses F.name self.old (stmt.CreateTable table.now
            columns.now) why) }
        ensures same { OnErr result ((txn_of self.new).own ≡ (txn_of self.old).own) }
        ensures rest { IsSameTxn self.old self.new }
    {
        let mut seen = match self.begin(alloc) {
            Ok(seen) => seen,
            Err(no) => return Err(no),
        };
        let result = create_table_in(alloc, &mut seen, &mut self.txn.own, table, columns);
        self.tally.seen = Some(seen);
        result
    }
}
