ghost use Rattle.std.specs.Prelude.{◌≡◌, ◌≤◌, ◌<◌, ◌+◌, [], ◌∷◌, length};
ghost use Rattle.cat_view.specs.Held.{held_in};
ghost use Rattle.cat_view.specs.StagedNames.{named_staged};
ghost use Rattle.rebase.specs.Parts.{fresh_files};
ghost use Rattle.door.specs.Opened.{carried_file};
ghost use Rattle.door.specs.Standing.{carried};
ghost use Rattle.cat_core.specs.Commits as spec;
ghost use Rattle.cat_core.specs.Holding.{IsUnheldIn, Rests, files_of, one_file};
ghost use Rattle.cat_core.specs.Shown.{held_at};

use cat_view::{HeldFiles, Staged, StagedFile, StagedTable};
use file_disk::Held;

/// Holds one more file, in room that is there.
#[tactic(auto, using(crate::proofs::HoldLemmas::is_unheld))]
fn hold_file<F: Held>(held: &mut HeldFiles<F>, file: F)
    requires room { 0 < (held_in held.old).room }
    requires unheld { held_at F.name F.size F.bytes held.old (F.name file) ≡ None }
    ensures more { spec.HoldsMore (carried_file F.name F.size F.bytes file ∷ []) (held_at F.name F.size F.bytes held.old)
        (held_at F.name F.size F.bytes held.new) }
    ensures room { (held_in held.old).room ≤ (held_in held.new).room + 1 }
{
    held.add(file);
}

/// Holds a file, if there is one.
#[tactic(auto, using(crate::proofs::HoldLemmas::none_more))]
fn hold_fresh<F: Held>(held: &mut HeldFiles<F>, fresh: Option<StagedFile<F>>)
    requires room { 0 < (held_in held.old).room }
    requires unheld { IsUnheldIn F.name (held_at F.name F.size F.bytes held.old) fresh }
    ensures more { spec.HoldsMore (one_file F.name F.size F.bytes fresh) (held_at F.name F.size F.bytes held.old)
        (held_at F.name F.size F.bytes held.new) }
    ensures room { (held_in held.old).room ≤ (held_in held.new).room + 1 }
{
    match fresh {
        Some(staged) => hold_file(held, staged.file),
        None => {}
    }
}

/// Holds a table's new file, if there is one.
fn hold_table<F: Held>(held: &mut HeldFiles<F>, table: StagedTable<F>)
    requires room { 0 < (held_in held.old).room }
    requires unheld { IsUnheldIn F.name (held_at F.name F.size F.bytes held.old) table.fresh }
    ensures more { spec.HoldsMore (files_of F.name F.size F.bytes (table ∷ [])) (held_at F.name F.size F.bytes held.old)
        (held_at F.name F.size F.bytes held.new) }
    ensures room { (held_in held.old).room ≤ (held_in held.new).room + 1 }
{
    let StagedTable { fresh, .. } = table;
    hold_fresh(held, fresh);
}

/// Holds the staged files, in room that is there.
#[tactic(auto, using(crate::proofs::HoldLemmas::none_more, crate::proofs::HoldLemmas::first_unheld, crate::proofs::HoldLemmas::rests_on, crate::proofs::HoldLemmas::holds_on))]
pub(crate) fn hold<F: Held>(held: &mut HeldFiles<F>, staged: Staged<F>)
    requires room { length staged.tables.items ≤ (held_in held.old).room }
    requires rests { Rests F.name F.size (held_at F.name F.size F.bytes held.old) staged.tables.items }
    ensures { spec.HoldsMore (carried F.name F.size F.bytes staged) (held_at F.name F.size F.bytes held.old)
        (held_at F.name F.size F.bytes held.new) }
{
    for table in staged.tables {
        hold_table(held, table);
    }
}
