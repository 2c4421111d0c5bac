ghost use Rattle.std.specs.Prelude.{◌≡◌, ◌<◌, ◌+◌, ◌++◌, ℕ, Option, [], true, drop, take, IfOk, OnOk, IfSome, IfNone, length, replicate};
ghost use Rattle.std.specs.List.{AllZip, HoldsAt, cons_option};
ghost use Rattle.std.specs.Option.{option_copied};
ghost use Rattle.cat_tables.specs.Table.{LacksKey, RisesByKey, has_key, key_cmp};
ghost use Rattle.cat_view.specs.Groups as spec;

use lake_types::{Listed, NoMemory};
use std::alloc::Global;
use std::cmp::Ordering;

/// A row that belongs to something which is known by an id, as a column does to its table.
pub trait Owned {
    /// The id of the owner at a snapshot; none where the snapshot doesn't see the row.
    ghost owner: { ℕ → Self → Option ℕ };

    fn owner(&self, snapshot: u64) -> Option<u64>
        ensures { result ≡ owner snapshot self.now };
}

/// Places of rows, rising.
pub type Places = Listed<usize>;

/// How an id stands to another.
fn compare(one: u64, other: u64) -> Ordering
    ensures { result ≡ key_cmp (spec.id_key one) (spec.id_key other) }
{
    [one].as_slice().cmp([other].as_slice())
}

/// The place of an id among ids that rise.
fn place_of(ids: &[u64], id: u64) -> Option<usize>
    requires { RisesByKey spec.id_key ids.now }
    ensures within { IfSome result (λ at. at < length ids.now) }
    ensures there { IfSome result (λ at. HoldsAt (λ x. has_key spec.id_key (spec.id_key id) x ≡ true) ids.now at) }
    ensures lacking { IfNone result (LacksKey spec.id_key (spec.id_key id) ids.now) }
{
    ids.binary_search_by(|one| compare(*one, id)).ok()
}

fn empty_groups(alloc: Global, count: usize) -> Result<Vec<Places>, NoMemory>
    ensures { IfOk result (λ groups. groups.items ≡ replicate count []) }
{
    let mut groups = Vec::new(alloc);
    for _owner in 0..count {
        groups.push(Places::new(alloc))?;
    }
    Ok(groups)
}

/// Adds a row's place to its owner's group.
fn add_place(
    groups: &mut Vec<Places>,
    ids: &[u64],
    owner: Option<u64>,
    place: usize,
) -> Result<(), NoMemory>
    requires rises { RisesByKey spec.id_key ids.now }
    requires same { length groups.old.items ≡ length ids.now }
    ensures { OnOk result (groups.new.items ≡ spec.with_place owner place ids.now groups.old.items) }
{
    let Some(id) = owner else {
        return Ok(());
    };
    let Some(at) = place_of(ids, id) else {
        return Ok(());
    };
    groups[at].push(place)?;
    Ok(())
}

/// For each owner the places of its rows, in their order. Time goes with the rows, and memory with those that have an
/// owner among these.
pub fn rows_by_owner<R: Owned>(
    alloc: Global,
    rows: &[R],
    snapshot: u64,
    ids: &[u64],
) -> Result<Vec<Places>, NoMemory>
    requires { RisesByKey spec.id_key ids.now }
    ensures { IfOk result (λ groups. AllZip (spec.IsGroup (R.owner snapshot) rows.now) ids.now groups.items) }
{
    let mut groups = empty_groups(alloc, ids.len())?;
    for place in 0..rows.len() {
        add_place(&mut groups, ids, rows[place].owner(snapshot), place)?;
    }
    Ok(groups)
}

/// The row at one of some places.
pub fn row_at<'a, R>(rows: &'a [R], places: &[usize], at: usize) -> Option<&'a R>
    requires { at < length places.now }
    ensures left { spec.rows_at rows.now (drop at places.now)
        ≡ cons_option (option_copied result) (spec.rows_at rows.now (drop (at + 1) places.now)) }
    ensures so_far { spec.rows_at rows.now (take (at + 1) places.now)
        ≡ spec.rows_at rows.now (take at places.now) ++ cons_option (option_copied result) [] }
{
    let place = places[at];
    if place < rows.len() {
        Some(&rows[place])
    } else {
        None
    }
}

/// The places of an id's group; none where there is no such group.
pub fn group_of<'a>(groups: &'a [Places], ids: &[u64], id: u64) -> &'a [usize]
    requires rises { RisesByKey spec.id_key ids.now }
    requires same { length groups.now ≡ length ids.now }
    ensures { result.now ≡ spec.group_in id ids.now groups.now }
{
    match place_of(ids, id) {
        Some(at) => groups[at].as_slice(),
        None => &[],
    }
}
