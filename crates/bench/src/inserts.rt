//! INSERT lines of one row, all in one transaction of `txn_buf`: a few, or 100,000 beside the reading of the lines.

ghost use Rattle.std.specs.Prelude.{IfOk, List, ℕ};
ghost use Rattle.cat_view.specs.Views.{named_view};
ghost use Rattle.cat_view.specs.Workable.{AreSized};
ghost use Rattle.txn_buf.specs.Turns.{StandsFor};

mod times;

use crate::lines::Script;
use anyhow::Result;
use cat_view::{Version, View};
use file_disk::{Held, MemFile};
use lake_types::{
    ColType, ColumnDef, ColumnDefs, NoMemory, SchemaName, SchemaNames, Stmt, TableName, Words,
};
use std::alloc::Global;
use std::sync::Arc;
use stmt_text::read_line;
pub use times::print_times;
use txn_buf::{TxnBuf, TxnNo, is_sized};

/// Lines of the small script.
const FEW: u32 = 20;

/// A view of a lake with the schema `main` alone.
fn new_lake(alloc: Global) -> Result<View<MemFile>, NoMemory>
    ensures { IfOk result (λ view. (name : MemFile → List ℕ) → AreSized (named_view name view).tables) }
{
    let mut schemas = SchemaNames::new(alloc);
    schemas.push(SchemaName {
        id: 0,
        name: Words::of(alloc, "main")?,
    })?;
    let version = Version {
        schemas,
        tables: Vec::new(alloc),
    };
    Ok(View::new(0, false, Arc::new(alloc, version)?))
}

fn column(alloc: Global, name: &str, ty: ColType) -> Result<ColumnDef, NoMemory> {
    Ok(ColumnDef {
        name: Words::of(alloc, name)?,
        ty,
        nulls: true,
        default_value: None,
    })
}

/// The columns of the scripts' rows.
fn columns(alloc: Global) -> Result<ColumnDefs, NoMemory> {
    let mut columns = ColumnDefs::new(alloc);
    columns.push(column(alloc, "number", ColType::Int64)?)?;
    columns.push(column(alloc, "note", ColType::Varchar)?)?;
    columns.push(column(alloc, "day", ColType::Date)?)?;
    Ok(columns)
}

/// The statement that makes the table of the scripts.
fn creation(alloc: Global) -> Result<Stmt, NoMemory> {
    let table = TableName {
        schema: Words::of(alloc, "main")?,
        table: Words::of(alloc, "t")?,
    };
    let columns = columns(alloc)?;
    Ok(Stmt::CreateTable { table, columns })
}

/// Runs a statement that creates a table.
fn created<F: Held>(alloc: Global, buf: &mut TxnBuf<F>, statement: &Stmt) -> Result<(), TxnNo>
    requires { StandsFor F.name buf.old }
    ensures { StandsFor F.name buf.new }
{
    if !is_sized(statement) {
        return Err(TxnNo::TooLarge);
    }
    match statement {
        Stmt::CreateTable { table, columns } => buf.create_table(alloc, table, columns.as_slice()),
        _ => Ok(()),
    }
}

/// A transaction that has made the table of the scripts.
fn begun<F: Held>(alloc: Global, view: View<F>) -> Result<TxnBuf<F>, TxnNo>
    requires { AreSized (named_view F.name view).tables }
    ensures { IfOk result (λ buf. StandsFor F.name buf) }
{
    let statement = creation(alloc)?;
    let mut buf = TxnBuf::new(alloc, view);
    match created(alloc, &mut buf, &statement) {
        Ok(()) => Ok(buf),
        Err(no) => Err(no),
    }
}

/// The rows that a statement inserts, and none where it is too large, is refused or is no INSERT.
fn inserted<F: Held>(alloc: Global, buf: &mut TxnBuf<F>, statement: &Stmt) -> u64
    requires { StandsFor F.name buf.old }
    ensures { StandsFor F.name buf.new }
{
    if !is_sized(statement) {
        return 0;
    }
    match statement {
        Stmt::Insert { table, rows } => match buf.insert(alloc, table, rows.as_slice()) {
            Ok(count) => count,
            Err(_) => 0,
        },
        _ => 0,
    }
}

/// The rows that statements insert.
fn all_inserted<F: Held>(alloc: Global, buf: &mut TxnBuf<F>, statements: &[Stmt]) -> u64
    requires { StandsFor F.name buf.old }
    ensures { StandsFor F.name buf.new }
{
    let mut rows = 0u64;
    for statement in statements {
        rows = rows.saturating_add(inserted(alloc, buf, statement));
    }
    rows
}

/// The rows that statements insert in a transaction of their own.
fn insert_all(alloc: Global, statements: &[Stmt]) -> Result<u64> {
    let view = new_lake(alloc)?;
    let mut buf = begun(alloc, view)?;
    Ok(all_inserted(alloc, &mut buf, statements))
}

/// What the lines of a script say, without those that say nothing.
fn statements(alloc: Global, script: &Script) -> Result<Vec<Stmt>, NoMemory> {
    let mut read = Vec::new(alloc);
    for at in 0..script.len() {
        if let Ok((_, statement)) = read_line(alloc, script.line(at)) {
            read.push(statement)?;
        }
    }
    Ok(read)
}

/// Prints how many rows a few lines insert.
pub fn print_small(rt: &impl Print, alloc: Global) -> Result<()> {
    let script = Script::new(alloc, FEW, 1)?;
    let statements = statements(alloc, &script)?;
    let rows = insert_all(alloc, statements.as_slice())?;
    println!(rt; "{FEW} lines insert {rows} rows")?;
    Ok(())
}
