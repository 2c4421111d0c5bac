ghost use Rattle.std.specs.Prelude.{◌≡◌, ◌↔◌, true, IsTrue};
ghost use Rattle.cat_tables.specs.Table.{key_cmp};
ghost use Rattle.cat_rows.specs.Batches.{tables_of, key_of, Fits};
ghost use Rattle.cat_rows.specs.Places.{place};
ghost use Rattle.cat_rows.specs.Steps as steps;

use crate::batch::{Batch, CatRow, Key};
use crate::content::CatRows;
use crate::key_order::{KeyRef, order};

/// What stands in a batch for a key.
pub(crate) trait HasKey {
    ghost use Rattle.cat_rows.specs.declared.batch.Key.{Key};

    ghost key: { Self → Key };

    fn key_ref(&self) -> KeyRef<'_>
        ensures { steps.ref_place result ≡ place (key self.now) };
}

impl HasKey for Key {
    ghost key = { λ k. k };

    fn key_ref(&self) -> KeyRef<'_> {
        self.as_key_ref()
    }
}

impl HasKey for (Key, u64) {
    ghost key = { λ e. e.0 };

    fn key_ref(&self) -> KeyRef<'_> {
        self.0.as_key_ref()
    }
}

impl HasKey for CatRow {
    ghost key = { key_of };

    fn key_ref(&self) -> KeyRef<'_> {
        CatRow::key_ref(self)
    }
}

/// Whether the keys rise, which a batch's lists mostly do.
pub(crate) fn rises<T: HasKey>(items: &[T]) -> bool
    ensures { result ≡ steps.rises T.key items.now }
{
    let Some((mut last, others)) = items.split_first() else {
        return true;
    };
    for item in others {
        if !order(last.key_ref(), item.key_ref()).is_lt() {
            return false;
        }
        last = item;
    }
    true
}

/// Whether one of these has this key.
fn has_key<T: HasKey>(items: &[T], key: KeyRef<'_>) -> bool
    ensures { result ≡ steps.has_place T.key items.now (steps.ref_place key.entry) }
{
    items.iter().any(|item| order(item.key_ref(), key).is_eq())
}

/// The same of keys that rise.
pub(crate) fn has_key_in_order<T: HasKey>(items: &[T], key: KeyRef<'_>) -> bool
    requires { steps.rises T.key items.now ≡ true }
    ensures { result ≡ steps.has_place T.key items.now (steps.ref_place key.entry) }
{
    items
        .binary_search_by(|item| order(item.key_ref(), key))
        .is_ok()
}

/// Whether no key stands twice, each compared with all behind it.
fn each_differs<T: HasKey>(items: &[T]) -> bool
    ensures { result ≡ steps.all_differ T.key items.now }
{
    for (i, item) in items.iter().enumerate() {
        if has_key(&items[i + 1..], item.key_ref()) {
            return false;
        }
    }
    true
}

/// Whether no key stands twice. Keys that rise don't; others are compared with one another.
fn all_differ<T: HasKey>(items: &[T]) -> bool
    ensures { result ≡ steps.all_differ T.key items.now }
{
    rises(items) || each_differs(items)
}

/// Whether a key is among these. Keys that rise are searched for it.
fn is_among(keys: &[Key], rising: bool, key: KeyRef<'_>) -> bool
    requires { rising ≡ true → steps.rises (λ k. k) keys.now ≡ true }
    ensures { result ≡ steps.has_place (λ k. k) keys.now (steps.ref_place key.entry) }
{
    if rising {
        has_key_in_order(keys, key)
    } else {
        has_key(keys, key)
    }
}

/// Whether there is a row of each key.
fn all_there(rows: &CatRows, keys: &[Key]) -> bool
    ensures { result ≡ steps.all_there (tables_of rows.now) keys.now }
{
    keys.iter().all(|key| rows.holds(key))
}

/// Whether each row that is to end has no end and isn't removed.
fn all_open(rows: &CatRows, removes: &[Key], ends: &[(Key, u64)]) -> bool
    ensures { result ≡ steps.all_open (tables_of rows.now) removes.now ends.now }
{
    let rising = rises(removes);
    ends.iter().all(|end| rows.is_open(&end.0) && !is_among(removes, rising, end.0.as_key_ref()))
}

/// Whether a row's key isn't there, or is removed.
fn is_new(rows: &CatRows, removes: &[Key], rising: bool, row: &CatRow) -> bool
    requires { rising ≡ true → steps.rises (λ k. k) removes.now ≡ true }
    ensures { result ≡ steps.is_new (tables_of rows.now) removes.now row.now }
{
    !rows.holds_key_of(row) || is_among(removes, rising, CatRow::key_ref(row))
}

fn all_new(rows: &CatRows, removes: &[Key], adds: &[CatRow]) -> bool
    ensures { result ≡ steps.all_new (tables_of rows.now) removes.now adds.now }
{
    let rising = rises(removes);
    adds.iter().all(|row| is_new(rows, removes, rising, row))
}

/// Whether a batch fits the rows: no key stands twice in one of its lists, removed keys are there, ended
/// rows have no end and aren't removed, and added keys aren't there once the removed ones are gone.
pub fn fits_batch(rows: &CatRows, batch: &Batch) -> bool
    ensures { IsTrue result ↔ Fits (tables_of rows.now) batch.now }
{
    passes(
        rows,
        batch.removes.as_slice(),
        batch.ends.as_slice(),
        batch.adds.as_slice(),
    )
}

fn passes(rows: &CatRows, removes: &[Key], ends: &[(Key, u64)], adds: &[CatRow]) -> bool
    ensures { result ≡ steps.passes (tables_of rows.now) removes.now ends.now adds.now }
{
    all_differ(removes)
        && all_differ(ends)
        && all_differ(adds)
        && all_there(rows, removes)
        && all_open(rows, removes, ends)
        && all_new(rows, removes, adds)
}
