ghost use Rattle.std.specs.Prelude.{◌≡◌, ◌||◌, ◌==◌, IfOk, OnOk, ℕ, Bool};
ghost use Rattle.indexmap.specs.IndexSet.{contains};
ghost use Rattle.lake_model.specs.Apply.{is_ref};
ghost use Rattle.lake_model.specs.Kinds as kinds;
ghost use Rattle.lake_model.specs.declared.change.Ref.TheVariants as ref;

use indexmap::IndexSet;
use lake_model::{Change, Ref};
use lake_types::NoMemory;
use std::alloc::Global;

/// The ids of the old schemas and tables that a list drops.
#[derive(Drop)]
pub(crate) struct Dropped {
    pub(crate) schemas: IndexSet<u64>,
    pub(crate) tables: IndexSet<u64>,
}

fn add(ids: &mut IndexSet<u64>, at: Ref) -> Result<(), NoMemory>
    ensures { OnOk result ((id : ℕ) → contains ◌==◌ ids.new id ≡ (contains ◌==◌ ids.old id || is_ref (ref.Old id) at)) }
{
    if let Ref::Old(id) = at {
        ids.insert(id)?;
    }
    Ok(())
}

impl Dropped {
    /// With what one change drops.
    fn add(&mut self, change: &Change) -> Result<(), NoMemory>
        ensures schemas { OnOk result ((id : ℕ) → contains ◌==◌ self.new.schemas id
            ≡ (contains ◌==◌ self.old.schemas id || kinds.is_drop_of_schema (ref.Old id) change.now)) }
        ensures tables { OnOk result ((id : ℕ) → contains ◌==◌ self.new.tables id
            ≡ (contains ◌==◌ self.old.tables id || kinds.is_drop_of_table (ref.Old id) change.now)) }
    {
        match change {
            Change::DropSchema { schema } => add(&mut self.schemas, *schema),
            Change::DropTable { table } => add(&mut self.tables, *table),
            _ => Ok(()),
        }
    }

    /// Those of a list.
    pub(crate) fn of(alloc: Global, own: &[Change]) -> Result<Dropped, NoMemory>
        ensures schemas { IfOk result (λ d. (id : ℕ) → contains ◌==◌ d.schemas id ≡ kinds.drops_schema own.now (ref.Old id)) }
        ensures tables { IfOk result (λ d. (id : ℕ) → contains ◌==◌ d.tables id ≡ kinds.drops_table own.now (ref.Old id)) }
    {
        let mut dropped = Dropped {
            schemas: IndexSet::new(alloc),
            tables: IndexSet::new(alloc),
        };
        let mut rest = own;
        while let [change, more @ ..] = rest {
            dropped.add(change)?;
            rest = more;
        }
        Ok(dropped)
    }

    pub(crate) fn has_schema(&self, id: u64) -> bool
        ensures { result ≡ contains ◌==◌ self.now.schemas id }
    {
        self.schemas.contains(&id)
    }

    pub(crate) fn has_table(&self, id: u64) -> bool
        ensures { result ≡ contains ◌==◌ self.now.tables id }
    {
        self.tables.contains(&id)
    }
}
