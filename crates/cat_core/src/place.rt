ghost use Rattle.std.specs.Prelude.{◌≡◌, ◌<◌, ◌-◌, true, option_map};
ghost use Rattle.lake_types.specs.declared.limits.TheConstants.{MAX_SESSIONS};
ghost use Rattle.lake_model.specs.Core.{is_session};
ghost use Rattle.cat_rows.specs.Batches.{tables_of};
ghost use Rattle.cat_rules.specs.Kept.{newest, oldest};

use cat_rows::{CatRows, SnapshotRow};

/// Where a session stands among sixteen.
pub(crate) fn place_of(session: u8) -> usize
    requires { is_session session ≡ true }
    ensures place { result ≡ session - 1 }
    ensures within { result < MAX_SESSIONS }
{
    session as usize - 1
}

#[tactic(auto, using(rebase::proofs::BatchLemmas::newest_last))]
fn last_number(rows: &[SnapshotRow]) -> Option<u64>
    ensures { result ≡ option_map (λ r. r.snapshot_id) (newest rows.now) }
{
    match rows.last() {
        Some(row) => Some(row.snapshot_id),
        None => None,
    }
}

fn first_number(rows: &[SnapshotRow]) -> Option<u64>
    ensures { result ≡ option_map (λ r. r.snapshot_id) (oldest rows.now) }
{
    match rows.first() {
        Some(row) => Some(row.snapshot_id),
        None => None,
    }
}

/// The number of the newest snapshot; none where there are no rows.
pub(crate) fn newest_in(rows: &CatRows) -> Option<u64>
    ensures { result ≡ option_map (λ r. r.snapshot_id) (newest (tables_of rows.now).snapshot) }
{
    last_number(rows.snapshot())
}

/// The number of the first snapshot that is kept.
pub(crate) fn first_in(rows: &CatRows) -> Option<u64>
    ensures { result ≡ option_map (λ r. r.snapshot_id) (oldest (tables_of rows.now).snapshot) }
{
    first_number(rows.snapshot())
}
