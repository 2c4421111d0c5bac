ghost use Rattle.std.specs.Prelude.{◌≡◌, ◌++◌, OnOk};
ghost use Rattle.stmt_text.specs.Printed as spec;

use crate::draft::Draft;
use crate::lists::{Put, put_list};
use crate::names::{put_literal, put_number, put_table, put_type};
use crate::rows::{put_delete, put_insert, put_select, put_update};
use lake_types::{Alter, ColType, ColumnDef, ColumnDefs, Stmt, TableName, Value, Words};
use std::alloc::{AllocError, Global};
use stmt_tokens::{Keyword, Sign};

fn put_begin_at(alloc: Global, line: &mut Draft, n: u64) -> Result<(), AllocError>
    ensures { OnOk result (line.new.tokens ≡ line.old.tokens ++ spec.begin_at_tokens n) }
{
    line.word(alloc, Keyword::Begin)?;
    line.word(alloc, Keyword::At)?;
    line.sign(alloc, Sign::LeftParen)?;
    line.word(alloc, Keyword::Version)?;
    line.sign(alloc, Sign::Arrow)?;
    put_number(alloc, line, n)?;
    line.sign(alloc, Sign::RightParen)
}

/// Adds a verb and SCHEMA with a name.
fn put_schema(
    alloc: Global,
    line: &mut Draft,
    verb: Keyword,
    name: &Words,
) -> Result<(), AllocError>
    ensures { OnOk result (line.new.tokens ≡ line.old.tokens ++ spec.schema_tokens verb name.now) }
{
    line.word(alloc, verb)?;
    line.word(alloc, Keyword::Schema)?;
    line.name(alloc, name)
}

/// Adds a verb and TABLE with a name.
fn put_verb_table(
    alloc: Global,
    line: &mut Draft,
    verb: Keyword,
    table: &TableName,
) -> Result<(), AllocError>
    ensures { OnOk result (line.new.tokens ≡ line.old.tokens ++ spec.verb_table_tokens verb table.now) }
{
    line.word(alloc, verb)?;
    line.word(alloc, Keyword::Table)?;
    put_table(alloc, line, table)
}

fn put_create_table(
    alloc: Global,
    line: &mut Draft,
    table: &TableName,
    columns: &ColumnDefs,
) -> Result<(), AllocError>
    ensures { OnOk result (line.new.tokens ≡ line.old.tokens ++ spec.create_table_tokens table.now columns.now) }
{
    put_verb_table(alloc, line, Keyword::Create, table)?;
    line.sign(alloc, Sign::LeftParen)?;
    put_list(alloc, line, columns.as_slice())?;
    line.sign(alloc, Sign::RightParen)
}

fn put_column(
    alloc: Global,
    line: &mut Draft,
    verb: Keyword,
    name: &Words,
) -> Result<(), AllocError>
    ensures { OnOk result (line.new.tokens ≡ line.old.tokens ++ spec.verb_column_tokens verb name.now) }
{
    line.word(alloc, verb)?;
    line.word(alloc, Keyword::Column)?;
    line.name(alloc, name)
}

fn put_add(alloc: Global, line: &mut Draft, column: &ColumnDef) -> Result<(), AllocError>
    ensures { OnOk result (line.new.tokens ≡ line.old.tokens ++ spec.add_tokens column.now) }
{
    line.word(alloc, Keyword::Add)?;
    line.word(alloc, Keyword::Column)?;
    column.put(alloc, line)
}

fn put_rename(alloc: Global, line: &mut Draft, name: &Words, to: &Words) -> Result<(), AllocError>
    ensures { OnOk result (line.new.tokens ≡ line.old.tokens ++ spec.rename_tokens name.now to.now) }
{
    put_column(alloc, line, Keyword::Rename, name)?;
    line.word(alloc, Keyword::To)?;
    line.name(alloc, to)
}

fn put_promote(alloc: Global, line: &mut Draft, name: &Words, ty: ColType) -> Result<(), AllocError>
    ensures { OnOk result (line.new.tokens ≡ line.old.tokens ++ spec.promote_tokens name.now ty) }
{
    put_column(alloc, line, Keyword::Alter, name)?;
    line.word(alloc, Keyword::Set)?;
    line.word(alloc, Keyword::Data)?;
    line.word(alloc, Keyword::Type)?;
    put_type(alloc, line, ty)
}

fn put_set_default(
    alloc: Global,
    line: &mut Draft,
    name: &Words,
    value: &Value,
) -> Result<(), AllocError>
    ensures { OnOk result (line.new.tokens ≡ line.old.tokens ++ spec.set_default_tokens name.now value.now) }
{
    put_column(alloc, line, Keyword::Alter, name)?;
    line.word(alloc, Keyword::Set)?;
    line.word(alloc, Keyword::Default)?;
    put_literal(alloc, line, value)
}

fn put_change(alloc: Global, line: &mut Draft, change: &Alter) -> Result<(), AllocError>
    ensures { OnOk result (line.new.tokens ≡ line.old.tokens ++ spec.change_tokens change.now) }
{
    match change {
        Alter::Add(column) => put_add(alloc, line, column),
        Alter::Remove { name } => put_column(alloc, line, Keyword::Drop, name),
        Alter::Rename { name, to } => put_rename(alloc, line, name, to),
        Alter::Promote { name, ty } => put_promote(alloc, line, name, *ty),
        Alter::SetDefault { name, value } => put_set_default(alloc, line, name, value),
    }
}

fn put_alter(
    alloc: Global,
    line: &mut Draft,
    table: &TableName,
    change: &Alter,
) -> Result<(), AllocError>
    ensures { OnOk result (line.new.tokens ≡ line.old.tokens ++ spec.alter_tokens table.now change.now) }
{
    put_verb_table(alloc, line, Keyword::Alter, table)?;
    put_change(alloc, line, change)
}

/// Adds a verb with a table's name.
fn put_upkeep(
    alloc: Global,
    line: &mut Draft,
    verb: Keyword,
    table: &TableName,
) -> Result<(), AllocError>
    ensures { OnOk result (line.new.tokens ≡ line.old.tokens ++ spec.upkeep_tokens verb table.now) }
{
    line.word(alloc, verb)?;
    put_table(alloc, line, table)
}

fn put_expire(alloc: Global, line: &mut Draft, n: u64) -> Result<(), AllocError>
    ensures { OnOk result (line.new.tokens ≡ line.old.tokens ++ spec.expire_tokens n) }
{
    line.word(alloc, Keyword::Expire)?;
    put_number(alloc, line, n)
}

/// Adds a statement.
pub fn put_stmt(alloc: Global, line: &mut Draft, stmt: &Stmt) -> Result<(), AllocError>
    ensures { OnOk result (line.new.tokens ≡ line.old.tokens ++ spec.statement_tokens stmt.now) }
{
    match stmt {
        Stmt::Begin => line.word(alloc, Keyword::Begin),
        Stmt::BeginAt { n } => put_begin_at(alloc, line, *n),
        Stmt::Commit => line.word(alloc, Keyword::Commit),
        Stmt::Rollback => line.word(alloc, Keyword::Rollback),
        Stmt::CreateSchema { name } => put_schema(alloc, line, Keyword::Create, name),
        Stmt::DropSchema { name } => put_schema(alloc, line, Keyword::Drop, name),
        Stmt::CreateTable { table, columns } => put_create_table(alloc, line, table, columns),
        Stmt::DropTable { table } => put_verb_table(alloc, line, Keyword::Drop, table),
        Stmt::Change { table, change } => put_alter(alloc, line, table, change),
        Stmt::Insert { table, rows } => put_insert(alloc, line, table, rows),
        Stmt::Delete { table, pred } => put_delete(alloc, line, table, pred),
        Stmt::Update { table, set, pred } => put_update(alloc, line, table, set, pred),
        Stmt::Select { table, items, pred } => put_select(alloc, line, table, items, pred),
        Stmt::Compact { table } => put_upkeep(alloc, line, Keyword::Compact, table),
        Stmt::Flush { table } => put_upkeep(alloc, line, Keyword::Flush, table),
        Stmt::Expire { n } => put_expire(alloc, line, *n),
        Stmt::Clean => line.word(alloc, Keyword::Clean),
        Stmt::Snapshots => line.word(alloc, Keyword::Snapshots),
    }
}
