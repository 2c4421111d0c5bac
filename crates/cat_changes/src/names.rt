ghost use Rattle.std.specs.Prelude.{◌≡◌, ℕ, IfOk};
ghost use Rattle.std.specs.BTreeMap.{get};
ghost use Rattle.std.specs.List.{list_any};
ghost use Rattle.std.specs.Ordering.{nat_cmp};
ghost use Rattle.lake_types.specs.Kinds.{name_of};
ghost use Rattle.cat_changes.specs.Reading as spec;

use crate::fault::BadChanges;
use lake_types::{Copied, Kind, KindList, Listed, SchemaName, Words};
use std::alloc::{AllocError, Global};
use std::collections::BTreeMap;

/// The kinds, where each dropped schema has the list's name for its id.
pub fn with_names(
    alloc: Global,
    kinds: KindList,
    schemas: &[SchemaName],
) -> Result<KindList, BadChanges>
    ensures { spec.NamesAll (name_of schemas.now) kinds result }
{
    if !drops_schema(kinds.as_slice()) {
        return Ok(kinds);
    }
    let names = names_of(alloc, schemas)?;
    named(alloc, kinds.as_slice(), &names)
}

/// The names by their ids, of each id the first. So looking up many names takes no time that grows with their
/// square.
fn names_of<'a>(
    alloc: Global,
    schemas: &'a [SchemaName],
) -> Result<BTreeMap<u64, &'a Words>, AllocError>
    ensures { IfOk result (λ names. (id : ℕ) → spec.shown (get nat_cmp names id) ≡ name_of schemas.now id) }
{
    let mut names = BTreeMap::new(alloc);
    for schema in schemas {
        if !names.contains_key(&schema.id) {
            names.insert(schema.id, &schema.name)?;
        }
    }
    Ok(names)
}

/// Whether a schema is dropped.
fn drops_schema(kinds: &[Kind]) -> bool
    ensures { result ≡ list_any spec.is_dropped_schema kinds.now }
{
    kinds.iter().any(is_dropped_schema)
}

fn is_dropped_schema(kind: &Kind) -> bool
    ensures { result ≡ spec.is_dropped_schema kind.now }
{
    matches!(kind, Kind::DroppedSchema { .. })
}

/// The kinds with the names of dropped schemas.
fn named(
    alloc: Global,
    kinds: &[Kind],
    names: &BTreeMap<u64, &Words>,
) -> Result<KindList, BadChanges>
    ensures { spec.NamesAll (λ id. spec.shown (get nat_cmp names.now id)) kinds.now result }
{
    let mut named = Listed::new(alloc);
    for kind in kinds {
        let kind = named_kind(alloc, kind, names)?;
        named.push(kind)?;
    }
    Ok(named)
}

fn named_kind(alloc: Global, kind: &Kind, names: &BTreeMap<u64, &Words>) -> Result<Kind, BadChanges>
    ensures { spec.NamesKind (λ id. spec.shown (get nat_cmp names.now id)) kind.now result }
{
    let Kind::DroppedSchema { id, .. } = kind else {
        let copy = kind.copy(alloc)?;
        return Ok(copy);
    };
    let Some(name) = names.get(id) else {
        return Err(BadChanges::NoSchema { id: *id });
    };
    let name = name.copy(alloc)?;
    Ok(Kind::DroppedSchema { id: *id, name })
}
