ghost use Rattle.std.specs.Prelude.{◌≡◌, ◌<◌, ℕ, All, drop, length, map, true, IfOk};
ghost use Rattle.std.specs.List.{slice_index_or};
ghost use Rattle.sheet_rows.specs.Live.{begins, left_from, rise_within};
ghost use Rattle.sheet_rows.specs.Rows.{places_of};
ghost use Rattle.sheet_rows.specs.declared.places.Kept.TheVariants.{These};

use lake_types::{Listed, NoMemory};
use std::alloc::Global;

pub(crate) type Places = Listed<u64>;

/// Which of a sheet's rows are there.
#[derive(Drop)]
pub(crate) enum Kept {
    All,
    /// Those at these places.
    These(Places),
}

/// How many are there of so many rows.
pub(crate) fn count_of(kept: &Kept, rows: u64) -> u64
    ensures { result ≡ length (places_of kept.now rows) }
{
    match kept {
        Kept::All => rows,
        Kept::These(places) => places.len() as u64,
    }
}

/// The place of one of them, by its number among those that are there.
pub(crate) fn place_at(kept: &Kept, rows: u64, at: u64) -> u64
    requires { at < length (places_of kept.now rows) }
    ensures { (other : ℕ) → result ≡ slice_index_or (places_of kept.now rows) at other }
{
    match kept {
        Kept::All => at,
        Kept::These(places) => places.as_slice()[at as usize],
    }
}

/// Whether these numbers begin with this one.
fn begins(rest: &[u64], at: u64) -> bool
    ensures { result ≡ begins rest.now at }
{
    match rest.first() {
        Some(first) => *first == at,
        None => false,
    }
}

/// The numbers behind the first one.
fn behind_first(rest: &[u64]) -> &[u64]
    requires { 0 < length rest.now }
    ensures { result.now ≡ drop 1 rest.now }
{
    &rest[1..]
}

/// The places that are left without those whose numbers are gone, in time linear in both.
fn left_of(alloc: Global, kept: &Kept, rows: u64, gone: &[u64]) -> Result<Places, NoMemory>
    requires { rise_within 0 (length (places_of kept.now rows)) gone.now ≡ true }
    ensures { IfOk result (λ left. left ≡ left_from 0 gone.now (places_of kept.now rows)) }
{
    let mut left = Places::new(alloc);
    let mut rest = gone;
    for at in 0..count_of(kept, rows) {
        if begins(rest, at) {
            rest = behind_first(rest);
        } else {
            left.push(place_at(kept, rows, at))?;
        }
    }
    Ok(left)
}

/// Which of the rows are there without those whose numbers are gone.
pub(crate) fn kept_without(
    alloc: Global,
    kept: Kept,
    rows: u64,
    gone: &[u64],
) -> Result<Kept, NoMemory>
    requires { rise_within 0 (length (places_of kept rows)) gone.now ≡ true }
    ensures { IfOk result (λ left. left ≡ These (left_from 0 gone.now (places_of kept rows))) }
{
    let left = left_of(alloc, &kept, rows, gone)?;
    Ok(Kept::These(left))
}

/// The places of some of the rows, by their numbers among those that are there.
fn places_at(alloc: Global, kept: &Kept, rows: u64, those: &[u64]) -> Result<Places, NoMemory>
    requires { All (λ at. at < length (places_of kept.now rows)) those.now }
    ensures { IfOk result (λ places. places ≡ map (λ at. slice_index_or (places_of kept.now rows) at 0) those.now) }
{
    let mut places = Places::new(alloc);
    for at in those {
        places.push(place_at(kept, rows, *at))?;
    }
    Ok(places)
}

/// Which of the rows are there where only those with some numbers are.
pub(crate) fn kept_only(
    alloc: Global,
    kept: Kept,
    rows: u64,
    those: &[u64],
) -> Result<Kept, NoMemory>
    requires { All (λ at. at < length (places_of kept rows)) those.now }
    ensures { IfOk result (λ only. only ≡ These (map (λ at. slice_index_or (places_of kept rows) at 0) those.now)) }
{
    let places = places_at(alloc, &kept, rows, those)?;
    Ok(Kept::These(places))
}
