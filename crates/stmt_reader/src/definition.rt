ghost use Rattle.std.specs.Prelude.{◌≡◌};
ghost use Rattle.stmt_reader.specs.Rules as spec;
ghost use Rattle.stmt_grammar.specs.Grammar.{first, read, starts};
ghost use Rattle.stmt_grammar.specs.Reads.{Reads};

use crate::literals::literal;
use crate::names::{column, column_type, columns, name, table};
use lake_types::{Alter, Stmt};
use std::alloc::Global;
use stmt_grammar::{Cursor, Stop};
use stmt_tokens::Keyword;

#[tactic(auto, unfolding(crate::specs::Rules::create))]
fn create(alloc: Global, tokens: &mut Cursor<'_>) -> Result<Stmt, Stop>
    ensures { Reads (read spec.create tokens.old.rest.now) result tokens.new.rest.now }
{
    if tokens.sees(Keyword::Schema) {
        tokens.expect(Keyword::Schema)?;
        Ok(Stmt::CreateSchema {
            name: name(alloc, tokens)?,
        })
    } else {
        tokens.expect(Keyword::Table)?;
        let table = table(alloc, tokens)?;
        let columns = columns(alloc, tokens)?;
        Ok(Stmt::CreateTable { table, columns })
    }
}

#[tactic(auto, unfolding(crate::specs::Rules::remove))]
fn remove(alloc: Global, tokens: &mut Cursor<'_>) -> Result<Stmt, Stop>
    ensures { Reads (read spec.remove tokens.old.rest.now) result tokens.new.rest.now }
{
    if tokens.sees(Keyword::Schema) {
        tokens.expect(Keyword::Schema)?;
        Ok(Stmt::DropSchema {
            name: name(alloc, tokens)?,
        })
    } else {
        tokens.expect(Keyword::Table)?;
        let table = table(alloc, tokens)?;
        Ok(Stmt::DropTable { table })
    }
}

#[tactic(auto, unfolding(crate::specs::Rules::rename))]
fn rename(alloc: Global, tokens: &mut Cursor<'_>) -> Result<Alter, Stop>
    ensures { Reads (read spec.rename tokens.old.rest.now) result tokens.new.rest.now }
{
    tokens.expect(Keyword::Rename)?;
    tokens.expect(Keyword::Column)?;
    let from = name(alloc, tokens)?;
    tokens.expect(Keyword::To)?;
    let to = name(alloc, tokens)?;
    Ok(Alter::Rename { name: from, to })
}

#[tactic(auto, unfolding(crate::specs::Rules::set_column, crate::specs::Rules::setting))]
fn set_column(alloc: Global, tokens: &mut Cursor<'_>) -> Result<Alter, Stop>
    ensures { Reads (read spec.set_column tokens.old.rest.now) result tokens.new.rest.now }
{
    tokens.expect(Keyword::Alter)?;
    tokens.expect(Keyword::Column)?;
    let name = name(alloc, tokens)?;
    tokens.expect(Keyword::Set)?;
    if tokens.sees(Keyword::Data) {
        tokens.expect(Keyword::Data)?;
        tokens.expect(Keyword::Type)?;
        let ty = column_type(tokens)?;
        Ok(Alter::Promote { name, ty })
    } else {
        tokens.expect(Keyword::Default)?;
        let value = literal(alloc, tokens)?;
        Ok(Alter::SetDefault { name, value })
    }
}

/// A change of a table's columns.
#[tactic(auto, unfolding(crate::specs::Rules::change, crate::specs::Rules::rename))]
fn change(alloc: Global, tokens: &mut Cursor<'_>) -> Result<Alter, Stop>
    ensures { Reads (read spec.change tokens.old.rest.now) result tokens.new.rest.now }
{
    if tokens.sees(Keyword::Add) {
        tokens.expect(Keyword::Add)?;
        tokens.expect(Keyword::Column)?;
        return Ok(Alter::Add(column(alloc, tokens)?));
    }
    if tokens.sees(Keyword::Drop) {
        tokens.expect(Keyword::Drop)?;
        tokens.expect(Keyword::Column)?;
        return Ok(Alter::Remove {
            name: name(alloc, tokens)?,
        });
    }
    if tokens.sees(Keyword::Rename) {
        return rename(alloc, tokens);
    }
    set_column(alloc, tokens)
}

#[tactic(auto, unfolding(crate::specs::Rules::alter))]
fn alter(alloc: Global, tokens: &mut Cursor<'_>) -> Result<Stmt, Stop>
    ensures { Reads (read spec.alter tokens.old.rest.now) result tokens.new.rest.now }
{
    tokens.expect(Keyword::Table)?;
    let table = table(alloc, tokens)?;
    let change = change(alloc, tokens)?;
    Ok(Stmt::Change { table, change })
}

/// Whether a statement on schemas and tables begins.
#[tactic(auto, unfolding(crate::specs::Rules::definition))]
pub fn opens_definition(tokens: &Cursor<'_>) -> bool
    ensures { result ≡ starts (first spec.definition) tokens.now.rest.now }
{
    tokens.sees(Keyword::Create) || tokens.sees(Keyword::Drop) || tokens.sees(Keyword::Alter)
}

/// A statement on schemas and tables.
#[tactic(auto, unfolding(crate::specs::Rules::definition))]
pub fn definition(alloc: Global, tokens: &mut Cursor<'_>) -> Result<Stmt, Stop>
    ensures { Reads (read spec.definition tokens.old.rest.now) result tokens.new.rest.now }
{
    if tokens.sees(Keyword::Create) {
        tokens.expect(Keyword::Create)?;
        return create(alloc, tokens);
    }
    if tokens.sees(Keyword::Drop) {
        tokens.expect(Keyword::Drop)?;
        return remove(alloc, tokens);
    }
    tokens.expect(Keyword::Alter)?;
    alter(alloc, tokens)
}
