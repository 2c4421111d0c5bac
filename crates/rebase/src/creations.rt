ghost use Rattle.std.specs.Prelude.{◌≡◌, ◌<◌, ◌+◌, ◌^◌, length, IfOk};
ghost use Rattle.lake_model.specs.Apply as apply;
ghost use Rattle.lake_model.specs.Creations as model;
ghost use Rattle.lake_model.specs.declared.change.Ref.TheVariants.{New};
ghost use Rattle.rebase.specs.Made as spec;

use lake_model::{Change, Ref, drops_schema, drops_table};
use lake_types::NoMemory;
use std::alloc::{AllocError, Global};

/// A schema or a table that a list creates and leaves, by its place among its creations of that sort.
#[derive(Drop)]
pub(crate) enum Made {
    Schema(u64),
    Table(u64),
}

/// Those of a list, in order of creation. Their catalogue ids count up in this order.
///
/// The list is searched once more from each creation on.
pub(crate) fn creations(alloc: Global, own: &[Change]) -> Result<Vec<Made>, NoMemory>
    ensures { IfOk result (λ made. spec.creations_of made.items ≡ model.creations 0 0 own.now) }
{
    let mut made = Vec::new(alloc);
    let mut schemas = 0;
    let mut tables = 0;
    let mut rest = own;
    while let [change, more @ ..] = rest {
        match change {
            Change::CreateSchema { .. } => {
                if !drops_schema(more, Ref::New(schemas)) {
                    made.push(Made::Schema(schemas))?;
                }
                schemas = next(schemas)?;
            }
            Change::CreateTable { .. } => {
                if !drops_table(more, Ref::New(tables)) {
                    made.push(Made::Table(tables))?;
                }
                tables = next(tables)?;
            }
            _ => {}
        }
        rest = more;
    }
    Ok(made)
}

/// The place behind another. No list has 2 to the 64 creations, since there is no memory for them.
pub(crate) fn next(place: u64) -> Result<u64, NoMemory>
    ensures { IfOk result (λ n. n ≡ place + 1) }
{
    place.checked_add(1).ok_or(AllocError)
}

fn is_schema(made: &Made, place: u64) -> bool
    ensures { result ≡ apply.is_created_schema (New place) (spec.creation_of made.now) }
{
    match made {
        Made::Schema(other) => place == *other,
        Made::Table(_) => false,
    }
}

fn is_table(made: &Made, place: u64) -> bool
    ensures { result ≡ apply.is_created_table (New place) (spec.creation_of made.now) }
{
    match made {
        Made::Schema(_) => false,
        Made::Table(other) => place == *other,
    }
}

/// The catalogue id of a schema: its own, or where it is created one from the next one on.
pub(crate) fn schema_id(next: u64, made: &[Made], at: Ref) -> u64
    requires { next + length made.now < 2 ^ 64 }
    ensures { result ≡ apply.schema_id next (spec.creations_of made.now) at }
{
    match at {
        Ref::Old(id) => id,
        Ref::New(place) => {
            let mut id = next;
            let mut rest = made;
            while let [first, more @ ..] = rest {
                if is_schema(first, place) {
                    return id;
                }
                id += 1;
                rest = more;
            }
            id
        }
    }
}

/// The same of a table.
pub(crate) fn table_id(next: u64, made: &[Made], at: Ref) -> u64
    requires { next + length made.now < 2 ^ 64 }
    ensures { result ≡ apply.table_id next (spec.creations_of made.now) at }
{
    match at {
        Ref::Old(id) => id,
        Ref::New(place) => {
            let mut id = next;
            let mut rest = made;
            while let [first, more @ ..] = rest {
                if is_table(first, place) {
                    return id;
                }
                id += 1;
                rest = more;
            }
            id
        }
    }
}
