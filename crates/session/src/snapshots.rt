ghost use Rattle.std.specs.Prelude.{◌≡◌, ◌≢◌, ◌≤◌, ◌⊎◌, ℕ, false, map, true, IfOk};
ghost use Rattle.lake_types.specs.declared.stmt.Stmt.TheVariants as stmt;
ghost use Rattle.lake_model.specs.Calls.{Ground};
ghost use Rattle.lake_model.specs.Step as spec;
ghost use Rattle.lake_model.specs.declared.answer.Answer.TheVariants as answer;
ghost use Rattle.lake_model.specs.declared.call.CallReply.TheVariants as reply;
ghost use Rattle.cat_view.specs.Files.{Files};
ghost use Rattle.session.specs.Held.{IsReady, number_of, own_of};
ghost use Rattle.session.specs.Line.{Answers};
ghost use Rattle.session.specs.Turns.{is_fault};

use crate::replies::only;
use crate::session::Session;
use door::{Door, ListNo};
use file_disk::Held;
use lake_model::{Answer, Reply, SnapRow, SnapRows, WordsList};
use lake_types::Words;
use std::alloc::{AllocError, Global};

/// The text of a kept snapshot.
fn snapshot_text(alloc: Global, row: &SnapRow) -> Result<Words, AllocError>
    ensures { IfOk result (λ text. text ≡ spec.snapshot_text row.now) }
{
    let number = row.snapshot;
    let changes = row.changes.as_str();
    Ok(Words::from_string(format!(in alloc; "{number},{changes}")?))
}

fn snapshot_texts(alloc: Global, rows: &[SnapRow]) -> Result<WordsList, AllocError>
    ensures { IfOk result (λ texts. texts ≡ map spec.snapshot_text rows.now) }
{
    let mut texts = WordsList::new(alloc);
    for row in rows {
        texts.push(snapshot_text(alloc, row)?)?;
    }
    Ok(texts)
}

/// The kept snapshots as a reply.
fn told(alloc: Global, rows: &SnapRows) -> Reply
    ensures reply { (result ≡ spec.reply_of (reply.Listed rows.now)) ⊎ (result ≡ spec.only answer.Memory) }
    ensures spares { is_fault result.last ≡ false }
{
    let n = rows.len() as u64;
    match snapshot_texts(alloc, rows.as_slice()) {
        Ok(rows) => Reply {
            rows,
            last: Answer::Number { n },
        },
        Err(_) => only(alloc, Answer::Memory),
    }
}

impl<F: Held> Session<F> {
    /// SNAPSHOTS.
    pub(crate) fn snapshots<R: Door<F>>(&self, alloc: Global, door: &mut R) -> Reply
        requires in_order { R.in_order door.old }
        requires served { R.serves door.old (number_of self.now) ≡ true }
        requires ready { IsReady F.name F.size F.bytes self.now (R.opened door.old (number_of self.now)) }
        ensures in_order { R.in_order door.new }
        ensures serves { R.serves door.new ≡ R.serves door.old }
        ensures ready { IsReady F.name F.size F.bytes self.now (R.opened door.new (number_of self.now)) }
        ensures others { (other : ℕ) → R.serves door.old other ≡ true → other ≢ number_of self.now →
            R.opened door.new other ≡ R.opened door.old other }
        ensures later { R.keeper_faults door.old ≤ R.keeper_faults door.new }
        ensures spares { is_fault result.last ≡ false }
        ensures line { (files : Files) (g : Ground) → R.stands door.old files g →
            Answers (R.serves door.old) (number_of self.now) stmt.Snapshots result
            (own_of self.now) (own_of self.now) (R.stands door.new files) g }
    {
        match door.list(alloc) {
            Ok(rows) => told(alloc, &rows),
            Err(ListNo::Spent { counter }) => only(alloc, Answer::Spent { counter }),
            Err(ListNo::Memory) => only(alloc, Answer::Memory),
        }
    }
}
