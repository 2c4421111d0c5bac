ghost use Rattle.std.specs.Prelude.{◌≡◌};
ghost use Rattle.stmt_reader.specs.Rules as spec;
ghost use Rattle.stmt_grammar.specs.Grammar.{first, read, starts};
ghost use Rattle.stmt_grammar.specs.Phrases as phrases;
ghost use Rattle.stmt_grammar.specs.Reads.{Reads};

use crate::literals::literal;
use crate::names::{name, table};
use crate::predicate::condition;
use lake_types::{
    Assignments, Cell, CellList, CellRows, Item, ItemList, Listed, Pred, Stmt, Value, Words,
};
use std::alloc::Global;
use stmt_grammar::{Cursor, Stop};
use stmt_tokens::{Keyword, Sign};

#[tactic(auto, unfolding(crate::specs::Rules::cell))]
fn cell(alloc: Global, tokens: &mut Cursor<'_>) -> Result<Cell, Stop>
    ensures { Reads (read spec.cell tokens.old.rest.now) result tokens.new.rest.now }
{
    if tokens.sees(Keyword::Default) {
        tokens.expect(Keyword::Default)?;
        Ok(Cell::Default)
    } else {
        Ok(Cell::Given(literal(alloc, tokens)?))
    }
}

#[tactic(auto, using(stmt_grammar::proofs::ListSteps::list_steps))]
fn cells(alloc: Global, tokens: &mut Cursor<'_>) -> Result<CellList, Stop>
    ensures { Reads (read (phrases.list spec.cell) tokens.old.rest.now) result tokens.new.rest.now }
{
    let mut cells = Listed::new(alloc);
    cells.push(cell(alloc, tokens)?)?;
    for _turn in 0..tokens.rest.len() {
        if !tokens.sees_sign(Sign::Comma) {
            return Ok(cells);
        }
        tokens.expect_sign(Sign::Comma)?;
        cells.push(cell(alloc, tokens)?)?;
    }
    Ok(cells)
}

#[tactic(auto, unfolding(crate::specs::Rules::row))]
fn row(alloc: Global, tokens: &mut Cursor<'_>) -> Result<CellList, Stop>
    ensures { Reads (read spec.row tokens.old.rest.now) result tokens.new.rest.now }
{
    tokens.expect_sign(Sign::LeftParen)?;
    let cells = cells(alloc, tokens)?;
    tokens.expect_sign(Sign::RightParen)?;
    Ok(cells)
}

#[tactic(auto, using(stmt_grammar::proofs::ListSteps::list_steps))]
fn row_list(alloc: Global, tokens: &mut Cursor<'_>) -> Result<CellRows, Stop>
    ensures { Reads (read (phrases.list spec.row) tokens.old.rest.now) result tokens.new.rest.now }
{
    let mut rows = Listed::new(alloc);
    rows.push(row(alloc, tokens)?)?;
    for _turn in 0..tokens.rest.len() {
        if !tokens.sees_sign(Sign::Comma) {
            return Ok(rows);
        }
        tokens.expect_sign(Sign::Comma)?;
        rows.push(row(alloc, tokens)?)?;
    }
    Ok(rows)
}

#[tactic(auto, unfolding(crate::specs::Rules::item))]
fn item(alloc: Global, tokens: &mut Cursor<'_>) -> Result<Item, Stop>
    ensures { Reads (read spec.item tokens.old.rest.now) result tokens.new.rest.now }
{
    if tokens.sees(Keyword::RowId) {
        tokens.expect(Keyword::RowId)?;
        Ok(Item::RowId)
    } else {
        Ok(Item::Column {
            name: name(alloc, tokens)?,
        })
    }
}

#[tactic(auto, using(stmt_grammar::proofs::ListSteps::list_steps))]
fn items(alloc: Global, tokens: &mut Cursor<'_>) -> Result<ItemList, Stop>
    ensures { Reads (read (phrases.list spec.item) tokens.old.rest.now) result tokens.new.rest.now }
{
    let mut items = Listed::new(alloc);
    items.push(item(alloc, tokens)?)?;
    for _turn in 0..tokens.rest.len() {
        if !tokens.sees_sign(Sign::Comma) {
            return Ok(items);
        }
        tokens.expect_sign(Sign::Comma)?;
        items.push(item(alloc, tokens)?)?;
    }
    Ok(items)
}

#[tactic(auto, unfolding(crate::specs::Rules::shown))]
fn shown(alloc: Global, tokens: &mut Cursor<'_>) -> Result<ItemList, Stop>
    ensures { Reads (read spec.shown tokens.old.rest.now) result tokens.new.rest.now }
{
    if tokens.sees_sign(Sign::Star) {
        tokens.expect_sign(Sign::Star)?;
        Ok(Listed::new(alloc))
    } else {
        let items = items(alloc, tokens)?;
        Ok(items)
    }
}

#[tactic(auto, unfolding(crate::specs::Rules::where_))]
fn where_part(alloc: Global, tokens: &mut Cursor<'_>) -> Result<Option<Pred>, Stop>
    ensures { Reads (read spec.where_ tokens.old.rest.now) result tokens.new.rest.now }
{
    if tokens.sees(Keyword::Where) {
        tokens.expect(Keyword::Where)?;
        Ok(Some(condition(alloc, tokens)?))
    } else {
        Ok(None)
    }
}

#[tactic(auto, unfolding(crate::specs::Rules::assignment))]
fn assignment(alloc: Global, tokens: &mut Cursor<'_>) -> Result<(Words, Value), Stop>
    ensures { Reads (read spec.assignment tokens.old.rest.now) result tokens.new.rest.now }
{
    let name = name(alloc, tokens)?;
    tokens.expect_sign(Sign::Eq)?;
    let value = literal(alloc, tokens)?;
    Ok((name, value))
}

#[tactic(auto, using(stmt_grammar::proofs::ListSteps::list_steps))]
fn assignments(alloc: Global, tokens: &mut Cursor<'_>) -> Result<Assignments, Stop>
    ensures { Reads (read (phrases.list spec.assignment) tokens.old.rest.now) result tokens.new.rest.now }
{
    let mut set = Listed::new(alloc);
    set.push(assignment(alloc, tokens)?)?;
    for _turn in 0..tokens.rest.len() {
        if !tokens.sees_sign(Sign::Comma) {
            return Ok(set);
        }
        tokens.expect_sign(Sign::Comma)?;
        set.push(assignment(alloc, tokens)?)?;
    }
    Ok(set)
}

#[tactic(auto, unfolding(crate::specs::Rules::insert))]
fn insert(alloc: Global, tokens: &mut Cursor<'_>) -> Result<Stmt, Stop>
    ensures { Reads (read spec.insert tokens.old.rest.now) result tokens.new.rest.now }
{
    tokens.expect(Keyword::Into)?;
    let table = table(alloc, tokens)?;
    tokens.expect(Keyword::Values)?;
    let rows = row_list(alloc, tokens)?;
    Ok(Stmt::Insert { table, rows })
}

#[tactic(auto, unfolding(crate::specs::Rules::delete))]
fn delete(alloc: Global, tokens: &mut Cursor<'_>) -> Result<Stmt, Stop>
    ensures { Reads (read spec.delete tokens.old.rest.now) result tokens.new.rest.now }
{
    tokens.expect(Keyword::From)?;
    let table = table(alloc, tokens)?;
    let pred = where_part(alloc, tokens)?;
    Ok(Stmt::Delete { table, pred })
}

#[tactic(auto, unfolding(crate::specs::Rules::update))]
fn update(alloc: Global, tokens: &mut Cursor<'_>) -> Result<Stmt, Stop>
    ensures { Reads (read spec.update tokens.old.rest.now) result tokens.new.rest.now }
{
    let table = table(alloc, tokens)?;
    tokens.expect(Keyword::Set)?;
    let set = assignments(alloc, tokens)?;
    let pred = where_part(alloc, tokens)?;
    Ok(Stmt::Update { table, set, pred })
}

#[tactic(auto, unfolding(crate::specs::Rules::select))]
fn select(alloc: Global, tokens: &mut Cursor<'_>) -> Result<Stmt, Stop>
    ensures { Reads (read spec.select tokens.old.rest.now) result tokens.new.rest.now }
{
    let items = shown(alloc, tokens)?;
    tokens.expect(Keyword::From)?;
    let table = table(alloc, tokens)?;
    let pred = where_part(alloc, tokens)?;
    Ok(Stmt::Select { table, items, pred })
}

/// Whether a statement on rows begins.
#[tactic(auto, unfolding(crate::specs::Rules::rows))]
pub fn opens_rows(tokens: &Cursor<'_>) -> bool
    ensures { result ≡ starts (first spec.rows) tokens.now.rest.now }
{
    tokens.sees(Keyword::Insert)
        || tokens.sees(Keyword::Delete)
        || tokens.sees(Keyword::Update)
        || tokens.sees(Keyword::Select)
}

/// A statement on rows.
#[tactic(auto, unfolding(crate::specs::Rules::rows))]
pub fn rows(alloc: Global, tokens: &mut Cursor<'_>) -> Result<Stmt, Stop>
    ensures { Reads (read spec.rows tokens.old.rest.now) result tokens.new.rest.now }
{
    if tokens.sees(Keyword::Insert) {
        tokens.expect(Keyword::Insert)?;
        return insert(alloc, tokens);
    }
    if tokens.sees(Keyword::Delete) {
        tokens.expect(Keyword::Delete)?;
        return delete(alloc, tokens);
    }
    if tokens.sees(Keyword::Update) {
        tokens.expect(Keyword::Update)?;
        return update(alloc, tokens);
    }
    tokens.expect(Keyword::Select)?;
    select(alloc, tokens)
}
