ghost use Rattle.std.specs.Prelude.{◌≡◌, ◌++◌, OnOk};
ghost use Rattle.stmt_text.specs.Printed as spec;

use crate::draft::Draft;
use crate::lists::{Put, put_list};
use crate::names::{put_literal, put_table};
use crate::predicate::put_test;
use lake_types::{
    Assignments, Cell, CellList, CellRows, Item, ItemList, Pred, TableName, Value, Words,
};
use std::alloc::{AllocError, Global};
use stmt_tokens::{Keyword, Sign};

impl Put for Cell {
    ghost use Rattle.stmt_text.specs.Printed.{cell_tokens};

    ghost tokens = { cell_tokens };

    fn put(&self, alloc: Global, line: &mut Draft) -> Result<(), AllocError> {
        match self {
            Cell::Given(value) => put_literal(alloc, line, value),
            Cell::Default => line.word(alloc, Keyword::Default),
        }
    }
}

impl Put for CellList {
    ghost use Rattle.stmt_text.specs.Printed.{row_tokens};

    ghost tokens = { row_tokens };

    fn put(&self, alloc: Global, line: &mut Draft) -> Result<(), AllocError> {
        line.sign(alloc, Sign::LeftParen)?;
        put_list(alloc, line, self.as_slice())?;
        line.sign(alloc, Sign::RightParen)
    }
}

impl Put for Item {
    ghost use Rattle.stmt_text.specs.Printed.{item_tokens};

    ghost tokens = { item_tokens };

    fn put(&self, alloc: Global, line: &mut Draft) -> Result<(), AllocError> {
        match self {
            Item::Column { name } => line.name(alloc, name),
            Item::RowId => line.word(alloc, Keyword::RowId),
        }
    }
}

impl Put for (Words, Value) {
    ghost use Rattle.stmt_text.specs.Printed.{assignment_tokens};

    ghost tokens = { assignment_tokens };

    fn put(&self, alloc: Global, line: &mut Draft) -> Result<(), AllocError> {
        line.name(alloc, &self.0)?;
        line.sign(alloc, Sign::Eq)?;
        put_literal(alloc, line, &self.1)
    }
}

fn put_items(alloc: Global, line: &mut Draft, items: &ItemList) -> Result<(), AllocError>
    ensures { OnOk result (line.new.tokens ≡ line.old.tokens ++ spec.shown_items items.now) }
{
    if items.is_empty() {
        line.sign(alloc, Sign::Star)
    } else {
        put_list(alloc, line, items.as_slice())
    }
}

fn put_where(alloc: Global, line: &mut Draft, test: &Option<Pred>) -> Result<(), AllocError>
    ensures { OnOk result (line.new.tokens ≡ line.old.tokens ++ spec.where_tokens test.now) }
{
    match test {
        Some(test) => {
            line.word(alloc, Keyword::Where)?;
            put_test(alloc, line, test)
        }
        None => Ok(()),
    }
}

pub fn put_insert(
    alloc: Global,
    line: &mut Draft,
    table: &TableName,
    rows: &CellRows,
) -> Result<(), AllocError>
    ensures { OnOk result (line.new.tokens ≡ line.old.tokens ++ spec.insert_tokens table.now rows.now) }
{
    line.word(alloc, Keyword::Insert)?;
    line.word(alloc, Keyword::Into)?;
    put_table(alloc, line, table)?;
    line.word(alloc, Keyword::Values)?;
    put_list(alloc, line, rows.as_slice())
}

pub fn put_delete(
    alloc: Global,
    line: &mut Draft,
    table: &TableName,
    test: &Option<Pred>,
) -> Result<(), AllocError>
    ensures { OnOk result (line.new.tokens ≡ line.old.tokens ++ spec.delete_tokens table.now test.now) }
{
    line.word(alloc, Keyword::Delete)?;
    line.word(alloc, Keyword::From)?;
    put_table(alloc, line, table)?;
    put_where(alloc, line, test)
}

pub fn put_update(
    alloc: Global,
    line: &mut Draft,
    table: &TableName,
    set: &Assignments,
    test: &Option<Pred>,
) -> Result<(), AllocError>
    ensures { OnOk result (line.new.tokens ≡ line.old.tokens ++ spec.update_tokens table.now set.now test.now) }
{
    line.word(alloc, Keyword::Update)?;
    put_table(alloc, line, table)?;
    line.word(alloc, Keyword::Set)?;
    put_list(alloc, line, set.as_slice())?;
    put_where(alloc, line, test)
}

pub fn put_select(
    alloc: Global,
    line: &mut Draft,
    table: &TableName,
    items: &ItemList,
    test: &Option<Pred>,
) -> Result<(), AllocError>
    ensures { OnOk result (line.new.tokens ≡ line.old.tokens ++ spec.select_tokens table.now items.now test.now) }
{
    line.word(alloc, Keyword::Select)?;
    put_items(alloc, line, items)?;
    line.word(alloc, Keyword::From)?;
    put_table(alloc, line, table)?;
    put_where(alloc, line, test)
}
