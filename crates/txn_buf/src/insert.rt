ghost use Rattle.std.specs.Prelude.{◌≡◌, ◌≢◌, ◌≤◌, ◌+◌, ◌-◌, ◌^◌, min, IfErr, IfOk, OnErr, OnOk};
ghost use Rattle.lake_types.specs.declared.limits.TheConstants.{MAX_TXN_WEIGHT};
ghost use Rattle.lake_types.specs.declared.stmt.Stmt.TheVariants as stmt;
ghost use Rattle.lake_model.specs.Plans as plan;
ghost use Rattle.lake_model.specs.Rows as spec;
ghost use Rattle.lake_model.specs.declared.answer.Answer.TheVariants as answer;
ghost use Rattle.txn_buf.specs.Drafts.{work_of};
ghost use Rattle.txn_buf.specs.Inserts.{insertion, insertion_weight, plan_of_rows, plan_weight, with_room};
ghost use Rattle.txn_buf.specs.Keeping.{txn_of};
ghost use Rattle.txn_buf.specs.Sizes.{IsSizedStmt};
ghost use Rattle.txn_buf.specs.Turns.{Does, IsSameTxn, Leaves, Refuses, StandsFor, answer_of};
ghost use Rattle.txn_buf.specs.declared.no.TxnNo.TheVariants.{Memory};

use crate::buffer::TxnBuf;
use crate::find::named_table;
use crate::no::TxnNo;
use crate::rows::{rows_cells, rows_fault, rows_weight};
use crate::seen::Seen;
use file_disk::Held;
use lake_model::{Change, ChangeList, Ref};
use lake_types::limits::MAX_TXN_WEIGHT;
use lake_types::{CellList, CellValues, Listed, TableName};
use std::alloc::Global;

/// Rows for a table.
#[derive(Drop)]
struct NewRows {
    table: Ref,
    rows: Listed<CellValues>,
}

/// The rows that a statement inserts.
#[tactic(auto, using(crate::proofs::InsertLemmas::rows_planned))]
fn new_rows(
    alloc: Global,
    seen: &Seen,
    table: &TableName,
    rows: &[CellList],
) -> Result<NewRows, TxnNo>
    ensures planned { IfOk result (λ new. spec.insert (work_of seen.now) table.now rows.now ≡ plan_of_rows new.table
        new.rows) }
    ensures refused { IfErr result (λ why. why ≢ Memory → spec.insert (work_of seen.now) table.now rows.now ≡
        plan.Refuse (answer_of why)) }
{
    let found = match named_table(alloc, seen, table) {
        Ok(found) => found,
        Err(no) => return Err(no),
    };
    let columns = found.columns.as_slice();
    match rows_fault(alloc, columns, rows) {
        Ok(()) => {}
        Err(no) => return Err(no),
    }
    let rows = rows_cells(alloc, columns, rows)?;
    Ok(NewRows {
        table: found.at,
        rows,
    })
}

/// How much rows weigh in the table of a reference. It stays at its type's last value.
fn weight_at(seen: &Seen, table: Ref, rows: &[CellValues]) -> u64
    ensures { result ≡ min (spec.insert_weight rows.now (spec.draft_at (work_of seen.now) table)) (2 ^ 64 - 1) }
{
    match seen.table_at(table) {
        Some(found) => rows_weight(found.columns.as_slice(), rows),
        None => 0,
    }
}

/// Adds the change that inserts rows, and their weight; where there are none it adds nothing.
fn add_rows(seen: &Seen, own: &mut ChangeList, weight: &mut u64, new: NewRows) -> Result<u64, TxnNo>
    requires small { weight.old ≤ MAX_TXN_WEIGHT }
    ensures done { IfOk result (λ n. Leaves (with_room weight.old (work_of seen.now) (plan_of_rows new.table
        new.rows)) own.old own.new (answer.Number n)) }
    ensures weight { OnOk result (weight.new ≡ weight.old + plan_weight (work_of seen.now) (plan_of_rows new.table
        new.rows)) }
    ensures small { OnOk result (weight.new ≤ MAX_TXN_WEIGHT) }
    ensures refused { IfErr result (λ why. why ≢ Memory → with_room weight.old (work_of seen.now) (plan_of_rows
        new.table new.rows) ≡ plan.Refuse (answer_of why)) }
    ensures same_own { OnErr result (own.new ≡ own.old) }
    ensures same_weight { OnErr result (weight.new ≡ weight.old) }
{
    let NewRows { table, rows } = new;
    if rows.is_empty() {
        return Ok(0);
    }
    let count = rows.len() as u64;
    let total = weight.saturating_add(weight_at(seen, table, rows.as_slice()));
    if total > MAX_TXN_WEIGHT {
        return Err(TxnNo::TooLarge);
    }
    own.push(Change::Insert { table, rows })?;
    *weight = total;
    Ok(count)
}

/// Inserts rows into the table of a name.
fn insert_in(
    alloc: Global,
    seen: &Seen,
    own: &mut ChangeList,
    weight: &mut u64,
    table: &TableName,
    rows: &[CellList],
) -> Result<u64, TxnNo>
    requires small { weight.old ≤ MAX_TXN_WEIGHT }
    ensures done { IfOk result (λ n. Leaves (insertion weight.old (work_of seen.now) table.now rows.now) own.old
        own.new (answer.Number n)) }
    ensures weight { OnOk result (weight.new ≡ weight.old + insertion_weight (work_of seen.now) table.now rows.now) }
    ensures small { OnOk result (weight.new ≤ MAX_TXN_WEIGHT) }
    ensures refused { IfErr result (λ why. why ≢ Memory → insertion weight.old (work_of seen.now) table.now rows.now ≡
        plan.Refuse (answer_of why)) }
    ensures same_own { OnErr result (own.new ≡ own.old) }
    ensures same_weight { OnErr result (weight.new ≡ weight.old) }
{
    let new = match new_rows(alloc, seen, table, rows) {
        Ok(new) => new,
        Err(no) => return Err(no),
    };
    match add_rows(seen, own, weight, new) {
        Ok(count) => Ok(count),
        Err(no) => Err(no),
    }
}

impl<F: Held> TxnBuf<F> {
    /// Inserts rows, and tells how many there are. Where there are none, it adds no change. The conditions
    /// are those of `create_schema`.
    ///
    /// `ReadOnly` and `Mixed` as there. Then, in this order: `NoSchema` and `NoTable`, where it sees no schema
    /// or table of the name; of the first row that has a fault `Arity`, where it hasn't a cell for each column,
    /// or of its first cell that has one `WrongType`, where the value isn't of its column's type, or `NotNull`,
    /// where it is NULL and its column takes none; and `TooLarge`, where the rows that the transaction makes
    /// would weigh more than `MAX_TXN_WEIGHT`.
    pub fn insert(
        &mut self,
        alloc: Global,
        table: &TableName,
        rows: &[CellList],
    ) -> Result<u64, TxnNo>
        requires stands { StandsFor F.name self.old }
        requires sized { IsSizedStmt (stmt.Insert table.now rows.now) }
        ensures stands { StandsFor F.name self.new }
        ensures done { IfOk result (λ n. Does F.name self.old (stmt.Insert table.now rows.now) self.new (answer.Number
            n)) }
        ensures refused { IfErr result (λ why. why ≢ Memory → Refuses F.name self.old (stmt.Insert table.now rows.now)
            why) }
        ensures same { OnErr result ((txn_of self.new).own ≡ (txn_of self.old).own) }
        ensures rest { IsSameTxn self.old self.new }
    {
        let seen = match self.begin(alloc) {
            Ok(seen) => seen,
            Err(no) => return Err(no),
        };
        let result = insert_in(
            alloc,
            &seen,
            &mut self.txn.own,
            &mut self.tally.weight,
            table,
            rows,
        );
        self.tally.seen = Some(seen);
        result
    }
}
