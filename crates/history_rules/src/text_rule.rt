ghost use Rattle.std.specs.Prelude.{◌≡◌, IfOk};
ghost use Rattle.std.specs.Bool.{Decides};
ghost use Rattle.cat_rows.specs.Batches.{tables_of};
ghost use Rattle.cat_rules.specs.First.{FirstBad};
ghost use Rattle.cat_rules.specs.Places.{of_changes};
ghost use Rattle.history_rules.specs.Endings.{names_at};
ghost use Rattle.cat_rules.specs.HistoryRule.{IsRead, IsTextBad, IsUnread};

use crate::endings::{Endings, endings_of};
use cat_changes::{BadChanges, read_changes};
use cat_rows::{CatRows, Key, SnapshotChangesRow};
use cat_rules::{CheckedRule, first_checked, kept_of};
use lake_types::{Listed, NoMemory, SchemaNames};
use std::alloc::{AllocError, Global};

/// Whether a text says what kinds of change there were, where dropped schemas have these names.
fn is_read(alloc: Global, text: &str, names: &SchemaNames) -> Result<bool, NoMemory>
    ensures { IfOk result (λ yes. Decides yes (IsRead names.now text.now)) }
{
    match read_changes(alloc, text, names) {
        Ok(_kinds) => Ok(true),
        Err(BadChanges::Memory) => Err(AllocError),
        Err(_) => Ok(false),
    }
}

/// The same with the names of the schemas that end at a snapshot.
fn is_read_at(alloc: Global, text: &str, endings: &Endings, snapshot: u64) -> Result<bool, NoMemory>
    ensures { IfOk result (λ yes. Decides yes (IsRead (names_at endings.now snapshot) text.now)) }
{
    match endings.get(&snapshot) {
        Some(names) => is_read(alloc, text, names),
        None => is_read(alloc, text, &Listed::new(alloc)),
    }
}

/// The texts of kept snapshots past the first that aren't read.
#[derive(Drop)]
struct Unread<'a> {
    rows: &'a CatRows,
    endings: &'a Endings,
}

impl<'a> CheckedRule<SnapshotChangesRow> for Unread<'a> {
    ghost Bad = { λ rule r. IsUnread (tables_of rule.rows.now) (names_at rule.endings.now) r };

    ghost name = { of_changes };

    fn judge(&self, alloc: Global, row: &SnapshotChangesRow) -> Result<Option<Key>, NoMemory> {
        let id = row.snapshot_id;
        let past = kept_of(self.rows.snapshot()).first < id;
        let kept = self.rows.holds(&Key::Snapshot(id));
        let read = is_read_at(alloc, row.changes_made.as_str(), self.endings, id)?;
        if past && kept && !read {
            Ok(Some(Key::SnapshotChanges(id)))
        } else {
            Ok(None)
        }
    }
}

/// The first changes text, of those of the kept snapshots past the first, that isn't read with the names of
/// the schemas that end at its snapshot.
pub(crate) fn first_unread_text(alloc: Global, rows: &CatRows) -> Result<Option<Key>, NoMemory>
    ensures { IfOk result (FirstBad (IsTextBad (tables_of rows.now))) }
{
    let endings = endings_of(alloc, rows.schema())?;
    let rule = Unread {
        rows,
        endings: &endings,
    };
    first_checked(alloc, &rule, rows.snapshot_changes())
}
