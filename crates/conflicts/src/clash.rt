ghost use Rattle.std.specs.Prelude.{◌≡◌, IfOk, find, option_map};
ghost use Rattle.std.specs.Option.{option_copied};
ghost use Rattle.conflicts.specs.Search as search;
ghost use Rattle.conflicts.specs.Shown.{shown};
ghost use Rattle.lake_model.specs.Clashes as spec;
ghost use Rattle.lake_types.specs.Kinds.{AreInOrder};

use crate::search::{dropped_named, first_same, first_table_in, same_kind};
use lake_types::{Clash, Copied, Kind, KindList, NoMemory};
use std::alloc::Global;

/// A conflict, lent by the two lists: what the committing list does, and what the snapshot past its base
/// has done.
#[derive(Clone, Copy, Debug)]
pub struct ClashRef<'a> {
    pub snapshot: u64,
    pub mine: &'a Kind,
    pub theirs: &'a Kind,
}

/// A copy of the conflict that owns its kinds. Want of memory is the only refusal.
pub fn own_clash(alloc: Global, clash: ClashRef) -> Result<Clash, NoMemory>
    ensures { IfOk result (λ own. own ≡ shown clash.entry) }
{
    Ok(Clash {
        snapshot: clash.snapshot,
        mine: clash.mine.copy(alloc)?,
        theirs: clash.theirs.copy(alloc)?,
    })
}

/// The first of mine that needs a table's rows to stay as they stood.
fn first_rewriting(mine: &[Kind], table: u64) -> Option<&Kind>
    requires { AreInOrder mine.now }
    ensures { option_copied result ≡ search.first_same mine.now (search.rewriters table) }
{
    let rewriting = [Kind::DeletedFrom { table }, Kind::Compacted { table }];
    first_same(mine, &rewriting)
}

/// The first of mine that needs a table's columns to stay as they stood.
fn first_writing(mine: &[Kind], table: u64) -> Option<&Kind>
    requires { AreInOrder mine.now }
    ensures { option_copied result ≡ search.first_same mine.now (search.writers table) }
{
    let writing = [
        Kind::InsertedInto { table },
        Kind::DeletedFrom { table },
        Kind::Altered { table },
    ];
    first_same(mine, &writing)
}

/// The first of mine that needs a table to stay.
fn first_using(mine: &[Kind], table: u64) -> Option<&Kind>
    requires { AreInOrder mine.now }
    ensures { option_copied result ≡ search.first_same mine.now (search.users table) }
{
    let using = [
        Kind::InsertedInto { table },
        Kind::DeletedFrom { table },
        Kind::Compacted { table },
        Kind::DroppedTable { table },
        Kind::Altered { table },
    ];
    first_same(mine, &using)
}

/// The first of mine that conflicts with one of theirs.
fn first_against<'a>(mine: &'a [Kind], theirs: &Kind) -> Option<&'a Kind>
    requires { AreInOrder mine.now }
    ensures { option_copied result ≡ find (λ m. spec.conflicts m theirs.now) mine.now }
{
    match theirs {
        Kind::CreatedSchema { .. } => same_kind(mine, theirs),
        Kind::CreatedTable { schema, .. } => {
            same_kind(mine, theirs).or(dropped_named(mine, schema))
        }
        Kind::InsertedInto { .. } => None,
        Kind::DeletedFrom { table } => first_rewriting(mine, *table),
        Kind::Compacted { table } => first_rewriting(mine, *table),
        Kind::DroppedSchema { name, .. } => {
            first_table_in(mine, name).or(dropped_named(mine, name))
        }
        Kind::DroppedTable { table } => first_using(mine, *table),
        Kind::Altered { table } => first_writing(mine, *table),
    }
}

/// The first conflict with the kinds of one snapshot, by theirs in order and then by mine; none where no kind of
/// mine conflicts with one of theirs. Mine stands in the order of a changes text, each kind once.
///
/// It takes no memory. Each of theirs is looked up in mine by at most five binary searches, so that the time
/// grows with the number of theirs times the logarithm of the number of mine. Dropped schemas stand by id and
/// conflict by name: for each of theirs that creates a table or drops a schema, the schemas that mine drops are
/// gone through.
pub fn first_clash<'a>(
    mine: &'a KindList,
    snapshot: u64,
    theirs: &'a KindList,
) -> Option<ClashRef<'a>>
    requires { AreInOrder mine.now }
    ensures { option_map shown result ≡ spec.first_clash mine.now snapshot theirs.now }
{
    let mut rest = theirs.as_slice();
    while let [first, more @ ..] = rest {
        if let Some(found) = first_against(mine.as_slice(), first) {
            return Some(ClashRef {
                snapshot,
                mine: found,
                theirs: first,
            });
        }
        rest = more;
    }
    None
}
