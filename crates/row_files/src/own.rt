ghost use Rattle.std.specs.Prelude.{◌≡◌, ◌<◌, ◌+◌, ◌^◌, ◌++◌, ◌∷◌, ◌||◌, [], false, List, None, Option, Some, IfOk, OnOk, if◌then◌else◌};
ghost use Rattle.indexmap.specs.IndexMap.{get};
ghost use Rattle.lake_model.specs.Apply.{is_ref};
ghost use Rattle.lake_model.specs.declared.change.Change.{Change as ChangeOf};
ghost use Rattle.lake_model.specs.declared.change.Ref.{Ref as RefOf};
ghost use Rattle.lake_model.specs.declared.change.Ref.TheVariants.{New};
ghost use Rattle.row_files.specs.Own as spec;
ghost use Rattle.row_files.specs.declared.own.OwnTable.{OwnTable as OwnTableOf};

use indexmap::IndexMap;
use lake_model::{Change, Ref};
use lake_types::NoMemory;
use std::alloc::Global;

/// What a list of changes does with a table: the places of the changes that insert into it, in order, and whether one
/// drops it.
#[derive(Drop)]
pub struct OwnTable {
    pub inserts: Vec<usize>,
    pub is_dropped: bool,
}

/// That of each table that the list names.
pub type OwnTables = IndexMap<Ref, OwnTable>;

fn nothing(alloc: Global) -> OwnTable
    ensures inserts { result.inserts.items ≡ [] }
    ensures dropped { result.is_dropped ≡ false }
{
    OwnTable {
        inserts: Vec::new(alloc),
        is_dropped: false,
    }
}

/// Takes out what is kept of a table. Nothing is kept of it then.
fn taken(alloc: Global, tables: &mut OwnTables, at: Ref) -> Result<OwnTable, NoMemory>
    ensures inserts { IfOk result (λ t. t.inserts.items ≡ spec.inserts_of (get is_ref tables.old at)) }
    ensures dropped { IfOk result (λ t. t.is_dropped ≡ spec.is_dropped (get is_ref tables.old at)) }
    ensures rest { OnOk result ((q : RefOf) → is_ref at q ≡ false → get is_ref tables.new q ≡ get is_ref tables.old q) }
{
    match tables.insert(at, nothing(alloc))? {
        Some(table) => Ok(table),
        None => Ok(nothing(alloc)),
    }
}

/// Keeps that the change at a place inserts into a table.
fn add_insert(alloc: Global, tables: &mut OwnTables, at: Ref, place: usize) -> Result<(), NoMemory>
    ensures inserts { OnOk result ((q : RefOf) → spec.inserts_of (get is_ref tables.new q)
        ≡ spec.inserts_of (get is_ref tables.old q) ++ (if is_ref q at then place ∷ [] else [])) }
    ensures dropped { OnOk result ((q : RefOf) → spec.is_dropped (get is_ref tables.new q)
        ≡ spec.is_dropped (get is_ref tables.old q)) }
{
    let mut table = taken(alloc, tables, at)?;
    table.inserts.push(place)?;
    tables.insert(at, table)?;
    Ok(())
}

/// Keeps that a table is dropped.
fn add_drop(alloc: Global, tables: &mut OwnTables, at: Ref) -> Result<(), NoMemory>
    ensures inserts { OnOk result ((q : RefOf) → spec.inserts_of (get is_ref tables.new q)
        ≡ spec.inserts_of (get is_ref tables.old q)) }
    ensures dropped { OnOk result ((q : RefOf) → spec.is_dropped (get is_ref tables.new q)
        ≡ (spec.is_dropped (get is_ref tables.old q) || is_ref q at)) }
{
    let mut table = taken(alloc, tables, at)?;
    table.is_dropped = true;
    tables.insert(at, table)?;
    Ok(())
}

/// Keeps nothing of a table that is new.
fn add_creation(alloc: Global, tables: &mut OwnTables, at: Ref) -> Result<(), NoMemory>
    ensures inserts { OnOk result (spec.inserts_of (get is_ref tables.new at) ≡ []) }
    ensures dropped { OnOk result (spec.is_dropped (get is_ref tables.new at) ≡ false) }
    ensures rest { OnOk result ((q : RefOf) → is_ref at q ≡ false → get is_ref tables.new q ≡ get is_ref tables.old q) }
{
    tables.insert(at, nothing(alloc))?;
    Ok(())
}

/// Keeps what one more change does, of which this is the place. So many tables were created before.
#[tactic(auto, using(crate::proofs::OwnLemmas::comes_to))]
fn note(
    alloc: Global,
    tables: &mut OwnTables,
    place: usize,
    created: u64,
    change: &Change,
) -> Result<(), NoMemory>
    ensures { OnOk result ((own : List ChangeOf) (last : RefOf → Option OwnTableOf)
        → spec.ComesTo (place + 1) (spec.next_table created change.now) own (get is_ref tables.new) last
        → spec.ComesTo place created (change.now ∷ own) (get is_ref tables.old) last) }
{
    match change {
        Change::Insert { table, .. } => add_insert(alloc, tables, *table, place),
        Change::DropTable { table } => add_drop(alloc, tables, *table),
        Change::CreateTable { .. } => add_creation(alloc, tables, Ref::New(created)),
        _ => Ok(()),
    }
}

/// How many tables are created once this change is done, where so many were before it.
pub fn next_created(created: u64, change: &Change) -> u64
    requires { created + 1 < 2 ^ 64 }
    ensures { result ≡ spec.next_table created change.now }
{
    match change {
        Change::CreateTable { .. } => created + 1,
        _ => created,
    }
}

/// What a list of changes does with each table, in one pass.
#[tactic(auto, using(crate::proofs::OwnLemmas::came_to))]
pub fn own_tables(alloc: Global, own: &[Change]) -> Result<OwnTables, NoMemory>
    ensures { IfOk result (λ tables. spec.ComesTo 0 0 own.now (λ _. None) (get is_ref tables)) }
{
    let mut tables = OwnTables::new(alloc);
    let mut created = 0u64;
    for place in 0..own.len() {
        let change = &own[place];
        note(alloc, &mut tables, place, created, change)?;
        created = next_created(created, change);
    }
    Ok(tables)
}
