ghost use Rattle.std.specs.Prelude.{◌≡◌, ◌≤◌, filter, find, length};
ghost use Rattle.std.specs.List.{prefix_len};
ghost use Rattle.std.specs.Option.{option_copied};
ghost use Rattle.std.specs.Ordering.{is_le, is_lt};
ghost use Rattle.conflicts.specs.Search as spec;
ghost use Rattle.lake_model.specs.Clashes.{same_name};
ghost use Rattle.lake_types.specs.Kinds.{AreInOrder, kind_cmp};

use lake_types::{Kind, Words};
use std::cmp::Ordering;

fn is_same_name(a: &Words, b: &Words) -> bool
    ensures { result ≡ same_name a.now b.now }
{
    a.as_str() == b.as_str()
}

/// How many kinds stand before the place of one.
fn kinds_before(kinds: &[Kind], kind: &Kind) -> usize
    requires { AreInOrder kinds.now }
    ensures { result ≡ prefix_len (λ k. is_lt (kind_cmp k kind.now)) kinds.now }
{
    kinds.partition_point(|k| k.compare(kind).is_lt())
}

/// The one of these kinds that is the same as another.
pub(crate) fn same_kind<'a>(kinds: &'a [Kind], kind: &Kind) -> Option<&'a Kind>
    requires { AreInOrder kinds.now }
    ensures { option_copied result ≡ find (spec.is_same kind.now) kinds.now }
{
    let found = kinds.get(kinds_before(kinds, kind))?;
    if found.compare(kind).is_eq() {
        Some(found)
    } else {
        None
    }
}

/// The first of the sought kinds, in their order, that stands among these.
pub(crate) fn first_same<'a>(kinds: &'a [Kind], sought: &[Kind]) -> Option<&'a Kind>
    requires { AreInOrder kinds.now }
    ensures { option_copied result ≡ spec.first_same kinds.now sought.now }
{
    let mut rest = sought;
    while let [kind, more @ ..] = rest {
        if let Some(found) = same_kind(kinds, kind) {
            return Some(found);
        }
        rest = more;
    }
    None
}

/// How a kind stands to the created tables of a schema, in the order of kinds.
fn to_tables_in(schema: &Words, kind: &Kind) -> Ordering
    ensures { result ≡ spec.to_tables_in schema.now kind.now }
{
    match kind {
        Kind::CreatedSchema { .. } => Ordering::Less,
        Kind::CreatedTable { schema: other, .. } => {
            other.as_str().as_bytes().cmp(schema.as_str().as_bytes())
        }
        _ => Ordering::Greater,
    }
}

/// How many kinds stand before the created tables of a schema.
fn kinds_before_tables_in(kinds: &[Kind], schema: &Words) -> usize
    requires { AreInOrder kinds.now }
    ensures { result ≡ prefix_len (λ k. is_lt (spec.to_tables_in schema.now k)) kinds.now }
{
    kinds.partition_point(|k| to_tables_in(schema, k).is_lt())
}

/// The first of these kinds that creates a table in a schema of this name.
pub(crate) fn first_table_in<'a>(kinds: &'a [Kind], schema: &Words) -> Option<&'a Kind>
    requires { AreInOrder kinds.now }
    ensures { option_copied result ≡ find (spec.is_table_in schema.now) kinds.now }
{
    let found = kinds.get(kinds_before_tables_in(kinds, schema))?;
    if to_tables_in(schema, found).is_eq() {
        Some(found)
    } else {
        None
    }
}

/// How a kind stands to the dropped schemas, in the order of kinds.
fn to_dropped_schemas(kind: &Kind) -> Ordering
    ensures { result ≡ spec.to_dropped_schemas kind.now }
{
    match kind {
        Kind::DroppedSchema { .. } => Ordering::Equal,
        Kind::DroppedTable { .. } | Kind::Altered { .. } => Ordering::Greater,
        _ => Ordering::Less,
    }
}

/// How many kinds stand before the dropped schemas.
fn kinds_before_dropped_schemas(kinds: &[Kind]) -> usize
    requires { AreInOrder kinds.now }
    ensures count { result ≡ prefix_len (λ k. is_lt (spec.to_dropped_schemas k)) kinds.now }
    ensures within { result ≤ length kinds.now }
{
    kinds.partition_point(|k| to_dropped_schemas(k).is_lt())
}

/// How many kinds stand up to the last dropped schema.
fn kinds_upto_dropped_schemas(kinds: &[Kind]) -> usize
    requires { AreInOrder kinds.now }
    ensures count { result ≡ prefix_len (λ k. is_le (spec.to_dropped_schemas k)) kinds.now }
    ensures within { result ≤ length kinds.now }
{
    kinds.partition_point(|k| to_dropped_schemas(k).is_le())
}

/// Those of the kinds that drop a schema. They stand together, by id.
fn dropped_schemas(kinds: &[Kind]) -> &[Kind]
    requires { AreInOrder kinds.now }
    ensures { result.now ≡ filter spec.is_dropped_schema kinds.now }
{
    let from = kinds_before_dropped_schemas(kinds);
    let to = kinds_upto_dropped_schemas(kinds);
    &kinds[from..to]
}

fn is_drop_of(name: &Words, kind: &Kind) -> bool
    ensures { result ≡ spec.is_drop_of name.now kind.now }
{
    match kind {
        Kind::DroppedSchema { name: dropped, .. } => is_same_name(dropped, name),
        _ => false,
    }
}

/// The first of these kinds that drops a schema of this name.
pub(crate) fn dropped_named<'a>(kinds: &'a [Kind], name: &Words) -> Option<&'a Kind>
    requires { AreInOrder kinds.now }
    ensures { option_copied result ≡ find (spec.is_drop_of name.now) kinds.now }
{
    dropped_schemas(kinds).iter().find(|k| is_drop_of(name, k))
}
