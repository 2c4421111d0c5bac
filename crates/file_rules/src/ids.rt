ghost use Rattle.std.specs.Prelude.{◌≡◌, ◌<◌, ℕ, List, IfOk, IsSome};
ghost use Rattle.std.specs.Bool.{Decides};
ghost use Rattle.std.specs.Borrow.{Bor};
ghost use Rattle.cat_rules.specs.Lookups.{HasRow};
ghost use Rattle.file_rules.specs.Ids as spec;

use cat_rows::{DataFileRow, DeleteFileRow};
use lake_types::NoMemory;
use std::alloc::Global;
use std::collections::BTreeMap;

/// A row of a file that has an id.
pub(crate) trait Filed {
    ghost path: { Self → List ℕ };

    ghost id: { Self → ℕ };

    fn path(&self) -> &str
        ensures { result.now ≡ path self.now };

    fn id(&self) -> u64
        ensures { result ≡ id self.now };
}

impl Filed for DataFileRow {
    ghost path = { λ r. r.path };

    ghost id = { λ r. r.data_file_id };

    fn path(&self) -> &str {
        self.path.as_str()
    }

    fn id(&self) -> u64 {
        self.data_file_id
    }
}

impl Filed for DeleteFileRow {
    ghost path = { λ r. r.path };

    ghost id = { λ r. r.delete_file_id };

    fn path(&self) -> &str {
        self.path.as_str()
    }

    fn id(&self) -> u64 {
        self.delete_file_id
    }
}

/// Ids of files by their paths.
pub(crate) type Ids<'a> = BTreeMap<&'a str, u64>;

/// The ids of files by their paths, of each path that of the first file.
pub(crate) fn first_ids<'a, R: Filed>(alloc: Global, rows: &'a [R]) -> Result<Ids<'a>, NoMemory>
    ensures { IfOk result (λ ids. (path : Bor (List ℕ)) →
        spec.id_at ids path.now ≡ spec.first_id R.path R.id rows.now path.now) }
{
    let mut ids = BTreeMap::new(alloc);
    for row in rows {
        if !ids.contains_key(row.path()) {
            ids.insert(row.path(), row.id())?;
        }
    }
    Ok(ids)
}

/// Whether a path is that of a file.
pub(crate) fn is_taken(ids: &Ids<'_>, path: &str) -> bool
    ensures { Decides result (IsSome (spec.id_at ids.now path.now)) }
{
    ids.contains_key(path)
}

/// Whether a path is that of a file with a smaller id.
pub(crate) fn is_taken_below(ids: &Ids<'_>, path: &str, id: u64) -> bool
    ensures { Decides result (HasRow (spec.id_at ids.now path.now) (λ first. first < id)) }
{
    match ids.get(path) {
        Some(first) => *first < id,
        None => false,
    }
}
