ghost use Rattle.std.specs.Prelude.{◌≡◌, ◌≤◌, ◌<◌, ◌+◌, ◌-◌, [], true, OnOk, IfSome, IfNone, length, vec_len, vec_capacity, if◌then◌else◌};
ghost use Rattle.std.specs.Fn.{CalledAt};
ghost use Rattle.std.specs.List.{HoldsAt, prefix_len};
ghost use Rattle.std.specs.List.Retain.{IsFiltered};
ghost use Rattle.std.specs.Option.{option_copied};
ghost use Rattle.std.specs.Ordering.{is_lt};
ghost use Rattle.cat_tables.specs.Table.{RisesByKey, LacksKey, has_key, key_cmp, row_of, put, without, edited};
ghost use Rattle.cat_tables.specs.Validity.{ended_at};

use crate::keyed::Keyed;
use crate::versioned::Versioned;
use std::alloc::{AllocError, Global};
use std::marker::Model;

/// The rows of one table, rising by key, each key once. Contracts see them, and how many more there is room for.
#[derive(Debug, Drop)]
pub struct KeyedTable<R: Keyed> {
    rows: Vec<R>,
}

impl<R: Keyed> Model for KeyedTable<R> {
    ghost use Rattle.std.specs.Prelude.{◌-◌, vec_len, vec_capacity};
    ghost use Rattle.cat_tables.specs.Table.{Stored, RisesByKey, stored_code};

    ghost Value = { Stored R };

    ghost coded = { stored_code R.code };

    ghost view = { λ t. record { rows = t.rows.items; room = vec_capacity t.rows - vec_len t.rows } };

    ghost invariant = { λ t. RisesByKey R.key t.rows.items };
}

/// How many rows stand below a row.
fn rows_below<R: Keyed>(rows: &[R], row: &R) -> usize
    requires { RisesByKey R.key rows.now }
    ensures count { result ≡ prefix_len (λ r. is_lt (key_cmp (R.key r) (R.key row.now))) rows.now }
    ensures within { result ≤ length rows.now }
{
    rows.partition_point(|r| r.compare_row(row).is_lt())
}

/// Where the row of a key stands.
fn place_of<R: Keyed>(rows: &[R], key: &R::Key) -> Option<usize>
    requires { RisesByKey R.key rows.now }
    ensures within { IfSome result (λ at. at < length rows.now) }
    ensures there { IfSome result (λ at. HoldsAt (λ r. has_key R.key (R.parts key.now) r ≡ true) rows.now at) }
    ensures lacking { IfNone result (LacksKey R.key (R.parts key.now) rows.now) }
{
    rows.binary_search_by(|r| r.compare_key(key)).ok()
}

/// The row of a key, among rows that rise by key.
pub fn find_row<'a, R: Keyed>(rows: &'a [R], key: &R::Key) -> Option<&'a R>
    requires { RisesByKey R.key rows.now }
    ensures { option_copied result ≡ row_of R.key (R.parts key.now) rows.now }
{
    match place_of(rows, key) {
        Some(at) => Some(&rows[at]),
        None => None,
    }
}

fn put_row<R: Keyed>(rows: &mut Vec<R>, row: R)
    requires rises { RisesByKey R.key rows.old.items }
    requires room { vec_len rows.old < vec_capacity rows.old }
    ensures rows { rows.new.items ≡ put R.key row rows.old.items }
    ensures len { vec_len rows.new ≡ vec_len rows.old + 1 }
    ensures room { vec_capacity rows.old ≤ vec_capacity rows.new }
{
    let at = rows_below(rows.as_slice(), &row);
    // There is room, so this takes no memory and can't fail.
    let _put = rows.insert(at, row).is_ok();
}

fn take_row<R: Keyed>(rows: &mut Vec<R>, key: &R::Key) -> Option<R>
    requires { RisesByKey R.key rows.old.items }
    ensures row { result ≡ row_of R.key (R.parts key.now) rows.old.items }
    ensures rows { rows.new.items ≡ without R.key (R.parts key.now) rows.old.items }
    ensures len { vec_len rows.new ≤ vec_len rows.old }
    ensures room { vec_capacity rows.new ≡ vec_capacity rows.old }
{
    match place_of(rows.as_slice(), key) {
        Some(at) => Some(rows.remove(at)),
        None => None,
    }
}

fn end_row<R: Versioned>(rows: &mut Vec<R>, key: &R::Key, snapshot: u64)
    requires { RisesByKey R.key rows.old.items }
    ensures rows { rows.new.items ≡ edited R.key (ended_at R.validity snapshot) (R.parts key.now) rows.old.items }
    ensures len { vec_len rows.new ≡ vec_len rows.old }
    ensures room { vec_capacity rows.new ≡ vec_capacity rows.old }
{
    if let Some(at) = place_of(rows.as_slice(), key) {
        rows[at].end_at(snapshot);
    }
}

impl<R: Keyed> KeyedTable<R> {
    /// The empty table. It takes no memory.
    pub fn new(alloc: Global) -> KeyedTable<R>
        ensures { result.rows ≡ [] }
    {
        KeyedTable {
            rows: Vec::new(alloc),
        }
    }

    /// The table of rows that rise by key. It takes no memory.
    pub fn from_vec(rows: Vec<R>) -> KeyedTable<R>
        requires { RisesByKey R.key rows.items }
        ensures { result.rows ≡ rows.items }
    {
        KeyedTable { rows }
    }

    pub fn as_slice(&self) -> &[R]
        ensures rows { result.now ≡ self.now.rows }
        ensures rises { RisesByKey R.key result.now }
    {
        self.rows.as_slice()
    }

    /// The row of a key.
    pub fn get(&self, key: &R::Key) -> Option<&R>
        ensures { option_copied result ≡ row_of R.key (R.parts key.now) self.now.rows }
    {
        find_row(self.rows.as_slice(), key)
    }

    /// Makes room for more rows. The rows stay, whatever the answer.
    pub fn reserve(&mut self, more: usize) -> Result<(), AllocError>
        ensures rows { self.new.rows ≡ self.old.rows }
        ensures room { OnOk result (more ≤ self.new.room) }
        ensures kept { self.old.room ≤ self.new.room }
    {
        self.rows.reserve(more)
    }

    /// Puts a row at its place, in room that is there. It takes no memory.
    pub fn put_reserved(&mut self, row: R)
        requires room { 0 < self.old.room }
        requires fresh { LacksKey R.key (R.key row) self.old.rows }
        ensures rows { self.new.rows ≡ put R.key row self.old.rows }
        ensures room { self.old.room ≤ self.new.room + 1 }
    {
        put_row(&mut self.rows, row);
    }

    /// Takes away the row of a key, if it is there.
    pub fn remove(&mut self, key: &R::Key)
        ensures rows { self.new.rows ≡ without R.key (R.parts key.now) self.old.rows }
        ensures room { self.old.room ≤ self.new.room }
    {
        let _row = take_row(&mut self.rows, key);
    }

    /// Keeps the rows of which the test says `true`, in one pass.
    pub fn retain<F: FnMut(&R) -> bool>(&mut self, test: F)
        requires { F.IsAlwaysCallable test }
        ensures rows { IsFiltered (CalledAt F.FnMut) test self.old.rows self.new.rows }
        ensures room { self.old.room ≤ self.new.room }
    {
        self.rows.retain(test);
    }

    /// Takes the row of a key out, if it is there.
    pub fn take(&mut self, key: &R::Key) -> Option<R>
        ensures row { result ≡ row_of R.key (R.parts key.now) self.old.rows }
        ensures rows { self.new.rows ≡ without R.key (R.parts key.now) self.old.rows }
        ensures room { self.old.room ≤ self.new.room }
    {
        take_row(&mut self.rows, key)
    }
}

impl<R: Versioned> KeyedTable<R> {
    /// Ends the row of a key at a snapshot, if it is there and has no end.
    pub fn end(&mut self, key: &R::Key, snapshot: u64)
        ensures rows { self.new.rows ≡ edited R.key (ended_at R.validity snapshot) (R.parts key.now) self.old.rows }
        ensures room { self.new.room ≡ self.old.room }
    {
        end_row(&mut self.rows, key, snapshot);
    }
}
