ghost use Rattle.std.specs.Prelude.{◌≡◌, ◌≤◌, Err, None, IfSome, IsErrOf, OnErr, OnOk, false};
ghost use Rattle.lake_io.specs.Causes.{raised, Rose};
ghost use Rattle.keeper.specs.Calls.{HasCause, Offers, Same, Stay, content_after};
ghost use Rattle.sqlite_keeper.specs.Numbers.{are_storable};

use crate::changing::change_rows;
use crate::loading::load_rows;
use crate::numbers::batch_fits;
use crate::tables::make_tables;
use cat_rows::{Batch, CatRows};
use keeper::{KeepNo, Keeper};
use sqlite::{Alter, Connection, Error, ErrorCode};
use std::alloc::Global;

/// Keeps the catalogue's rows in a database, each batch in one transaction. It tells nothing of its rows, and counts
/// each refusal of a statement but want of memory.
#[derive(Drop)]
pub struct SqlKeeper<S: Alter + Drop> {
    conn: Connection<S>,
    has_tables: bool,
    faults: u64,
}

/// Refuses a connection on which a transaction is open.
fn idle<S: Alter>(conn: &Connection<S>) -> Result<(), Error>
    ensures { OnOk result (conn.now.in_transaction ≡ false) }
{
    if conn.is_autocommit() {
        Ok(())
    } else {
        Err(Error::SqliteFailure(ErrorCode::TransactionState))
    }
}

impl<S: Alter + Drop> SqlKeeper<S> {
    /// It runs no statement.
    pub fn over(conn: Connection<S>) -> SqlKeeper<S>
        ensures { result.faults ≡ 0 }
    {
        SqlKeeper {
            conn,
            has_tables: false,
            faults: 0,
        }
    }

    /// How often it has failed.
    pub fn faults(&self) -> u64
        ensures { result ≡ self.now.faults }
    {
        self.faults
    }

    /// Gives the connection back.
    pub fn into_connection(self) -> Connection<S> {
        let SqlKeeper {
            conn,
            has_tables: _,
            faults: _,
        } = self;
        conn
    }

    /// Makes the tables that are missing, in one transaction. Once they are there, nobody else can drop them, since the
    /// database stays locked.
    fn make_tables(&mut self) -> Result<(), Error>
        ensures { self.new.faults ≡ self.old.faults }
    {
        if self.has_tables {
            return Ok(());
        }
        idle(&self.conn)?;
        let mut tx = self.conn.transaction();
        make_tables(&mut tx)?;
        tx.commit()?;
        self.has_tables = true;
        Ok(())
    }

    fn loaded(&mut self, alloc: Global) -> Result<CatRows, Error>
        ensures { self.new.faults ≡ self.old.faults }
    {
        self.make_tables()?;
        load_rows(&mut self.conn, alloc)
    }

    fn applied(&mut self, batch: &Batch) -> Result<(), Error>
        ensures { self.new.faults ≡ self.old.faults }
    {
        self.make_tables()?;
        idle(&self.conn)?;
        let mut tx = self.conn.transaction();
        change_rows(&mut tx, batch)?;
        tx.commit()
    }

    fn count_fault(&mut self)
        ensures change { self.new ≡ record self.old { faults = raised self.old.faults } }
        ensures later { self.old.faults ≤ self.new.faults }
        ensures rose { Rose self.old.faults self.new.faults }
    {
        self.faults = self.faults.saturating_add(1);
    }

    fn counted<T: Drop>(&mut self, answer: Result<T, Error>) -> Result<T, KeepNo>
        ensures { HasCause self.old.faults self.new.faults result }
    {
        match answer {
            Ok(value) => Ok(value),
            Err(Error::SqliteFailure(ErrorCode::OutOfMemory)) => Err(KeepNo::Memory),
            Err(_) => {
                self.count_fault();
                Err(KeepNo::Failed)
            }
        }
    }
}

impl<S: Alter + Drop> Keeper for SqlKeeper<S> {
    ghost content = { λ _. None };

    ghost images = { λ _ _. Unit {0} };

    ghost faults = { λ k. k.faults };

    ghost tells_an_image = { λ _. tt };

    fn load(&mut self, alloc: Global) -> Result<CatRows, KeepNo> {
        let rows = self.loaded(alloc);
        self.counted(rows)
    }

    /// A batch with a number that no database has is refused before any statement runs.
    fn apply(&mut self, _alloc: Global, batch: &Batch) -> Result<(), KeepNo>
        ensures refused { are_storable batch.now ≡ false → result ≡ Err KeepNo.Failed }
        ensures unchanged { are_storable batch.now ≡ false →
            self.new ≡ record self.old { faults = raised self.old.faults } }

        ensures cause { HasCause self.old.faults self.new.faults result }
        ensures content { None ≡ content_after result batch.now None }
        ensures images { IfSome None (λ told. Offers result batch.now told (λ _. Unit {0}) (λ _. Unit {0})) }
        ensures stay { OnErr result (Stay (λ _. Unit {0}) (λ _. Unit {0})) }
        ensures memory { IsErrOf result KeepNo.Memory → Same (λ _. Unit {0}) (λ _. Unit {0}) }
    {
        if !batch_fits(batch) {
            self.count_fault();
            return Err(KeepNo::Failed);
        }
        let done = self.applied(batch);
        self.counted(done)
    }
}
