ghost use Rattle.std.specs.Prelude.{◌≡◌, ◌++◌, ◌∷◌, ◌==◌, [], ℕ, IfOk, OnOk, if◌then◌else◌};
ghost use Rattle.history_rules.specs.Endings.{names_at};
ghost use Rattle.cat_rules.specs.HistoryRule.{names_ending};

use cat_rows::SchemaRow;
use lake_types::{Copied, Listed, NoMemory, SchemaName, SchemaNames};
use std::alloc::Global;
use std::collections::BTreeMap;

/// The names of schemas, by the snapshots at which they end.
pub(crate) type Endings = BTreeMap<u64, SchemaNames>;

fn add_name(
    alloc: Global,
    endings: &mut Endings,
    end: u64,
    name: SchemaName,
) -> Result<(), NoMemory>
    ensures { OnOk result ((n : ℕ) →
        names_at endings.new n ≡ names_at endings.old n ++ (if end == n then name ∷ [] else [])) }
{
    let mut names = match endings.remove(&end) {
        Some(names) => names,
        None => Listed::new(alloc),
    };
    names.push(name)?;
    endings.insert(end, names)?;
    Ok(())
}

/// The names of the schemas that end, by the snapshots at which they do.
pub(crate) fn endings_of(alloc: Global, schemas: &[SchemaRow]) -> Result<Endings, NoMemory>
    ensures { IfOk result (λ endings. (n : ℕ) → names_at endings n ≡ names_ending schemas.now n) }
{
    let mut endings = BTreeMap::new(alloc);
    for row in schemas {
        if let Some(end) = row.end_snapshot {
            let name = SchemaName {
                id: row.schema_id,
                name: row.schema_name.copy(alloc)?,
            };
            add_name(alloc, &mut endings, end, name)?;
        }
    }
    Ok(endings)
}
