ghost use Rattle.std.specs.Prelude.{◌≡◌, ◌≢◌, ◌↔◌, ℕ, List, IsTrue, None, map};
ghost use Rattle.std.specs.List.{AllByRecursion};
ghost use Rattle.cat_rows.specs.Batches.{tables_of};
ghost use Rattle.cat_rows.specs.declared.files.ScheduledFileRow.{ScheduledFileRow};
ghost use Rattle.cat_view.specs.StagedNames.{named_staged_table};
ghost use Rattle.rebase.specs.Files.{files_in};
ghost use Rattle.rebase.specs.Parts.{fresh_files};
ghost use Rattle.cat_core.specs.Commits.{AreNew};
ghost use Rattle.cat_core.specs.Names.{IsNew, names_of};
ghost use Rattle.cat_core.specs.Shown.{held_at};

use cat_rows::CatRows;
use cat_tables::find_row;
use cat_view::{HeldFiles, StagedTable};
use file_disk::Held;
use lake_types::Words;

/// Whether no file of a name is scheduled to go.
fn is_unscheduled(rows: &CatRows, name: &Words) -> bool
    ensures { IsTrue result ↔ AllByRecursion (λ (r : ScheduledFileRow). r.path ≢ name.now)
        (tables_of rows.now).scheduled_file }
{
    match find_row(rows.scheduled_file(), name) {
        Some(_) => false,
        None => true,
    }
}

/// Whether no file of a name is held.
fn is_unheld<F: Held>(held: &HeldFiles<F>, name: &Words) -> bool
    ensures { IsTrue result ↔ held_at F.name F.size F.bytes held.now name.now ≡ None }
{
    match held.get(name) {
        Some(_) => false,
        None => true,
    }
}

fn is_same(name: &Words, other: &Words) -> bool
    ensures { IsTrue result ↔ name.now ≡ other.now }
{
    name.as_str() == other.as_str()
}

/// Whether none of these staged files has a name.
fn lack_name<F: Held>(staged: &[StagedTable<F>], name: &Words) -> bool
    ensures { IsTrue result ↔ AllByRecursion (λ (n : List ℕ). name.now ≢ n)
        (names_of (files_in F.name F.size staged.now)) }
{
    let mut rest = staged;
    while let [table, more @ ..] = rest {
        if let Some(file) = &table.fresh {
            if is_same(name, file.file.name()) {
                return false;
            }
        }
        rest = more;
    }
    true
}

/// Whether a staged file has a name of its own, which no later one has either.
fn is_new<F: Held>(
    rows: &CatRows,
    held: &HeldFiles<F>,
    name: &Words,
    later: &[StagedTable<F>],
) -> bool
    ensures { IsTrue result ↔ IsNew (tables_of rows.now) (held_at F.name F.size F.bytes held.now) name.now
        (names_of (files_in F.name F.size later.now)) }
{
    if !is_unheld(held, name) {
        return false;
    }
    if !is_unscheduled(rows, name) {
        return false;
    }
    lack_name(later, name)
}

/// Whether staged files have names of their own: no two the same, none that a held file has, and none of a file
/// that is scheduled to go.
pub(crate) fn are_new<F: Held>(
    rows: &CatRows,
    held: &HeldFiles<F>,
    staged: &[StagedTable<F>],
) -> bool
    ensures { IsTrue result ↔ AreNew (tables_of rows.now) (held_at F.name F.size F.bytes held.now)
        (fresh_files (map (named_staged_table F.name F.size) staged.now)) }
{
    let mut rest = staged;
    while let [table, more @ ..] = rest {
        if let Some(file) = &table.fresh {
            if !is_new(rows, held, file.file.name(), more) {
                return false;
            }
        }
        rest = more;
    }
    true
}
