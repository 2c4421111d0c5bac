ghost use Rattle.std.specs.Prelude.{◌≡◌, ◌<◌, ◌∷◌, ℕ, [], None, IfSome, OnOk, IfOk, false, length, not, slice_index_or, unwrap_or};
ghost use Rattle.std.specs.List.{list_any};
ghost use Rattle.std.specs.Option.{option_copied};
ghost use Rattle.lake_types.specs.Kinds as types;
ghost use Rattle.lake_model.specs.Apply as apply;
ghost use Rattle.lake_model.specs.Kinds as spec;
ghost use Rattle.lake_model.specs.Placed.{IsPlaced, Marks};
ghost use Rattle.lake_model.specs.declared.change.Ref.TheVariants.{New, Old};
ghost use Rattle.lake_model.specs.declared.change.RowRef.TheVariants.{Fresh};
ghost use Rattle.lake_types.specs.declared.kind.Kind.TheVariants.{CreatedSchema, CreatedTable, DeletedFrom, InsertedInto};

use crate::change::{Change, ChangeList, Ref, RowRef};
use lake_types::{Copied, Kind, KindList, Listed, NoMemory, SchemaName, SchemaNames, Words};
use std::alloc::{AllocError, Global};
use std::cmp::Ordering;

/// Whether two references name one thing.
pub fn is_ref(a: Ref, b: Ref) -> bool
    ensures { result ≡ apply.is_ref a b }
{
    match (a, b) {
        (Ref::Old(a), Ref::Old(b)) => a == b,
        (Ref::New(a), Ref::New(b)) => a == b,
        _ => false,
    }
}

/// Where a kind belongs among kinds in order; none where it stands there.
fn place_for(kinds: &[Kind], kind: &Kind) -> Option<usize>
    ensures some { IfSome result (IsPlaced kind.now kinds.now) }
    ensures none { result ≡ None → spec.put kind.now kinds.now ≡ kinds.now }
{
    let mut at = 0;
    let mut rest = kinds;
    while let [first, more @ ..] = rest {
        match kind.compare(first) {
            Ordering::Less => return Some(at),
            Ordering::Equal => return None,
            Ordering::Greater => {}
        }
        at += 1;
        rest = more;
    }
    Some(at)
}

/// Puts a kind at its place, unless it stands there.
fn put(kinds: &mut Vec<Kind>, kind: Kind) -> Result<(), AllocError>
    ensures { OnOk result (kinds.new.items ≡ spec.put kind kinds.old.items) }
{
    match place_for(kinds.as_slice(), &kind) {
        Some(at) => kinds.insert(at, kind)?,
        None => {}
    }
    Ok(())
}

fn is_drop_of_table(at: Ref, change: &Change) -> bool
    ensures { result ≡ spec.is_drop_of_table at change.now }
{
    match change {
        Change::DropTable { table } => is_ref(at, *table),
        _ => false,
    }
}

/// Whether a list drops a table.
pub fn drops_table(own: &[Change], at: Ref) -> bool
    ensures { result ≡ spec.drops_table own.now at }
{
    own.iter().any(|change| is_drop_of_table(at, change))
}

fn is_drop_of_schema(at: Ref, change: &Change) -> bool
    ensures { result ≡ spec.is_drop_of_schema at change.now }
{
    match change {
        Change::DropSchema { schema } => is_ref(at, *schema),
        _ => false,
    }
}

/// Whether a list drops a schema.
pub fn drops_schema(own: &[Change], at: Ref) -> bool
    ensures { result ≡ spec.drops_schema own.now at }
{
    own.iter().any(|change| is_drop_of_schema(at, change))
}

fn is_old(row: &RowRef) -> bool
    ensures { result ≡ spec.is_old row.now }
{
    matches!(row, RowRef::Old(_))
}

fn names_old(rows: &[RowRef]) -> bool
    ensures { result ≡ spec.names_old rows.now }
{
    rows.iter().any(is_old)
}

/// The name of the created schema at a place among those that the list creates.
fn created_name(own: &[Change], place: u64) -> Option<&Words>
    ensures { option_copied result ≡ spec.created_name place own.now }
{
    let mut left = place;
    let mut rest = own;
    while let [change, more @ ..] = rest {
        if let Change::CreateSchema { name } = change {
            if left == 0 {
                return Some(name);
            }
            left -= 1;
        }
        rest = more;
    }
    None
}

/// The name that a list has for a schema's id.
fn name_of(names: &[SchemaName], id: u64) -> Option<&Words>
    ensures { option_copied result ≡ types.name_of names.now id }
{
    let mut rest = names;
    while let [schema, more @ ..] = rest {
        if schema.id == id {
            return Some(&schema.name);
        }
        rest = more;
    }
    None
}

fn copy_or_empty(alloc: Global, name: Option<&Words>) -> Result<Words, AllocError>
    ensures { IfOk result (λ copy. copy ≡ unwrap_or (option_copied name.entry) []) }
{
    match name {
        Some(name) => name.copy(alloc),
        None => Words::of(alloc, ""),
    }
}

fn schema_name(
    alloc: Global,
    names: &[SchemaName],
    own: &[Change],
    schema: Ref,
) -> Result<Words, AllocError>
    ensures { IfOk result (λ name. name ≡ spec.schema_name names.now own.now schema) }
{
    match schema {
        Ref::Old(id) => copy_or_empty(alloc, name_of(names, id)),
        Ref::New(place) => copy_or_empty(alloc, created_name(own, place)),
    }
}

/// How many rows the list inserts into a table. A number past its type counts as want of memory.
fn inserted(own: &[Change], at: Ref) -> Result<usize, AllocError>
    ensures { IfOk result (λ n. n ≡ spec.inserted own.now at) }
{
    let mut total = 0usize;
    let mut rest = own;
    while let [change, more @ ..] = rest {
        let Some(sum) = total.checked_add(inserted_by(at, change)) else {
            return Err(AllocError);
        };
        total = sum;
        rest = more;
    }
    Ok(total)
}

fn inserted_by(at: Ref, change: &Change) -> usize
    ensures { result ≡ spec.inserted_by at change.now }
{
    match change {
        Change::Insert { table, rows } => { if is_ref(*table, at) { rows.len() } else { 0 } }
        _ => 0,
    }
}

/// Marks the places of fresh rows that are named.
fn mark_rows(gone: &mut [bool], rows: &[RowRef])
    ensures len { length gone.new ≡ length gone.old }
    ensures marks { Marks gone.old gone.new (λ p. apply.is_named rows.now (Fresh p)) }
{
    let mut rest = rows;
    while let [row, more @ ..] = rest {
        if let RowRef::Fresh(place) = row {
            if *place < gone.len() as u64 {
                gone[*place as usize] = true;
            }
        }
        rest = more;
    }
}

/// Marks the places of the fresh rows of a table that a change deletes.
fn mark_change(gone: &mut [bool], change: &Change, at: Ref)
    ensures len { length gone.new ≡ length gone.old }
    ensures marks { Marks gone.old gone.new (λ p. spec.is_delete_of at (Fresh p) change.now) }
{
    if let Change::Delete { table, rows } = change {
        if is_ref(*table, at) {
            mark_rows(gone, rows.as_slice());
        }
    }
}

/// Marks the places of the fresh rows of a table that the list deletes.
fn mark_list(gone: &mut [bool], own: &[Change], at: Ref)
    ensures len { length gone.new ≡ length gone.old }
    ensures marks { Marks gone.old gone.new (λ p. spec.deletes_row own.now at (Fresh p)) }
{
    let mut rest = own;
    while let [change, more @ ..] = rest {
        mark_change(gone, change, at);
        rest = more;
    }
}

/// Which of the first rows that the list inserts into a table it deletes again.
fn deleted_places(
    alloc: Global,
    own: &[Change],
    at: Ref,
    count: usize,
) -> Result<Vec<bool>, AllocError>
    ensures len { IfOk result (λ gone. length gone.items ≡ count) }
    ensures marks { IfOk result (λ gone. (p : ℕ) → p < count → slice_index_or gone.items p false ≡ spec.deletes_row own.now at (Fresh p)) }
{
    let mut gone = vec![in alloc; false; count]?;
    mark_list(gone.as_mut_slice(), own, at);
    Ok(gone)
}

fn has_unmarked(gone: &[bool]) -> bool
    ensures { result ≡ list_any not gone.now }
{
    gone.iter().any(|gone| !*gone)
}

/// Whether a fresh row of a table is left at the end, in time linear in the list and its rows.
fn leaves_fresh(alloc: Global, own: &[Change], at: Ref) -> Result<bool, AllocError>
    ensures { IfOk result (λ leaves. leaves ≡ spec.leaves_fresh own.now at) }
{
    let count = inserted(own, at)?;
    let gone = deleted_places(alloc, own, at, count)?;
    Ok(has_unmarked(gone.as_slice()))
}

/// Adds a kind of a table of the base, unless the list drops the table.
fn add_of_table(
    kinds: &mut Vec<Kind>,
    own: &[Change],
    table: u64,
    kind: Kind,
) -> Result<(), AllocError>
    ensures { OnOk result (kinds.new.items ≡ spec.put_all kinds.old.items (spec.of_table own.now (Old table) (λ _. kind ∷ []))) }
{
    // The list is searched once for each kind, since a kind that stands there is not put again.
    if place_for(kinds.as_slice(), &kind).is_some() && !drops_table(own, Ref::Old(table)) {
        put(kinds, kind)?;
    }
    Ok(())
}

/// Adds that rows were inserted into a table, where one is left.
fn add_inserted(
    alloc: Global,
    kinds: &mut Vec<Kind>,
    own: &[Change],
    table: u64,
) -> Result<(), AllocError>
    ensures { OnOk result (kinds.new.items ≡ spec.put_all kinds.old.items
        (spec.of_table own.now (Old table) (λ id. spec.only_if (spec.leaves_fresh own.now (Old table)) (InsertedInto id)))) }
{
    let kind = Kind::InsertedInto { table };
    if place_for(kinds.as_slice(), &kind).is_some() && leaves_fresh(alloc, own, Ref::Old(table))? {
        add_of_table(kinds, own, table, kind)?;
    }
    Ok(())
}

/// Adds that rows of a table were deleted, where an old one is named.
fn add_deleted(
    kinds: &mut Vec<Kind>,
    own: &[Change],
    table: u64,
    rows: &[RowRef],
) -> Result<(), AllocError>
    ensures { OnOk result (kinds.new.items ≡ spec.put_all kinds.old.items
        (spec.of_table own.now (Old table) (λ id. spec.only_if (spec.names_old rows.now) (DeletedFrom id)))) }
{
    if names_old(rows) {
        add_of_table(kinds, own, table, Kind::DeletedFrom { table })?;
    }
    Ok(())
}

/// Adds that rows of a table were inserted anew and deleted, where an old one is named.
fn add_updated(
    kinds: &mut Vec<Kind>,
    own: &[Change],
    table: u64,
    rows: &[RowRef],
) -> Result<(), AllocError>
    ensures { OnOk result (kinds.new.items ≡ spec.put_all kinds.old.items (spec.of_table own.now (Old table) (spec.is_updated rows.now))) }
{
    if names_old(rows) {
        add_of_table(kinds, own, table, Kind::InsertedInto { table })?;
        add_of_table(kinds, own, table, Kind::DeletedFrom { table })?;
    }
    Ok(())
}

/// Adds the kinds of a change of a table of the base.
fn add_of_old(
    alloc: Global,
    kinds: &mut Vec<Kind>,
    own: &[Change],
    table: u64,
    change: &Change,
) -> Result<(), AllocError>
    ensures { OnOk result (kinds.new.items ≡ spec.put_all kinds.old.items (spec.of_table own.now (Old table) (spec.kinds_of_old own.now change.now))) }
{
    match change {
        Change::AddColumn { .. }
        | Change::DropColumn { .. }
        | Change::RenameColumn { .. }
        | Change::PromoteColumn { .. }
        | Change::SetDefault { .. } => add_of_table(kinds, own, table, Kind::Altered { table }),
        Change::Insert { .. } => add_inserted(alloc, kinds, own, table),
        Change::Delete { rows, .. } => add_deleted(kinds, own, table, rows.as_slice()),
        Change::Update { rows, .. } => add_updated(kinds, own, table, rows.as_slice()),
        Change::Compact { .. } | Change::Flush { .. } => {
            add_of_table(kinds, own, table, Kind::Compacted { table })
        }
        _ => Ok(()),
    }
}

/// The table that a change of rows or columns is of.
fn table_of(change: &Change) -> Option<Ref>
    ensures { result ≡ spec.table_of change.now }
{
    match change {
        Change::AddColumn { table, .. }
        | Change::DropColumn { table, .. }
        | Change::RenameColumn { table, .. }
        | Change::PromoteColumn { table, .. }
        | Change::SetDefault { table, .. }
        | Change::Insert { table, .. }
        | Change::Delete { table, .. }
        | Change::Update { table, .. }
        | Change::Compact { table }
        | Change::Flush { table } => Some(*table),
        _ => None,
    }
}

/// Adds the kinds of a change of rows or columns.
fn add_by(
    alloc: Global,
    kinds: &mut Vec<Kind>,
    own: &[Change],
    change: &Change,
) -> Result<(), AllocError>
    ensures { OnOk result (kinds.new.items ≡ spec.put_all kinds.old.items (spec.kinds_by own.now change.now)) }
{
    match table_of(change) {
        Some(Ref::Old(table)) => add_of_old(alloc, kinds, own, table, change),
        _ => Ok(()),
    }
}

/// Adds that a schema was created, unless the list drops it.
fn add_schema(
    alloc: Global,
    kinds: &mut Vec<Kind>,
    own: &[Change],
    place: u64,
    name: &Words,
) -> Result<(), AllocError>
    ensures { OnOk result (kinds.new.items ≡ spec.put_all kinds.old.items
        (spec.only_if (not (spec.drops_schema own.now (New place))) (CreatedSchema name.now))) }
{
    if !drops_schema(own, Ref::New(place)) {
        let name = name.copy(alloc)?;
        put(kinds, Kind::CreatedSchema { name })?;
    }
    Ok(())
}

/// Adds that a table was created, unless the list drops it.
fn add_table(
    alloc: Global,
    kinds: &mut Vec<Kind>,
    names: &[SchemaName],
    own: &[Change],
    place: u64,
    schema: Ref,
    name: &Words,
) -> Result<(), AllocError>
    ensures { OnOk result (kinds.new.items ≡ spec.put_all kinds.old.items
        (spec.only_if (not (spec.drops_table own.now (New place))) (CreatedTable (spec.schema_name names.now own.now schema) name.now))) }
{
    if !drops_table(own, Ref::New(place)) {
        let schema = schema_name(alloc, names, own, schema)?;
        let name = name.copy(alloc)?;
        put(kinds, Kind::CreatedTable { schema, name })?;
    }
    Ok(())
}

/// Adds that a schema of the base was dropped.
fn add_dropped_schema(
    alloc: Global,
    kinds: &mut Vec<Kind>,
    names: &[SchemaName],
    schema: Ref,
) -> Result<(), AllocError>
    ensures { OnOk result (kinds.new.items ≡ spec.put_all kinds.old.items (spec.dropped_schema names.now schema)) }
{
    if let Ref::Old(id) = schema {
        let name = copy_or_empty(alloc, name_of(names, id))?;
        put(kinds, Kind::DroppedSchema { id, name })?;
    }
    Ok(())
}

/// Adds that a table of the base was dropped.
fn add_dropped_table(kinds: &mut Vec<Kind>, table: Ref) -> Result<(), AllocError>
    ensures { OnOk result (kinds.new.items ≡ spec.put_all kinds.old.items (spec.dropped_table table)) }
{
    if let Ref::Old(table) = table {
        put(kinds, Kind::DroppedTable { table })?;
    }
    Ok(())
}

/// Adds the kinds of a change, before which the list created so many schemas and tables.
fn add(
    alloc: Global,
    kinds: &mut Vec<Kind>,
    names: &[SchemaName],
    own: &[Change],
    created: (u64, u64),
    change: &Change,
) -> Result<(), AllocError>
    ensures { OnOk result (kinds.new.items ≡ spec.put_all kinds.old.items (spec.kinds_at names.now own.now created.0 created.1 change.now)) }
{
    match change {
        Change::CreateSchema { name } => add_schema(alloc, kinds, own, created.0, name),
        Change::CreateTable { schema, name, .. } => {
            add_table(alloc, kinds, names, own, created.1, *schema, name)
        }
        Change::DropSchema { schema } => add_dropped_schema(alloc, kinds, names, *schema),
        Change::DropTable { table } => add_dropped_table(kinds, *table),
        _ => add_by(alloc, kinds, own, change),
    }
}

fn schemas_after(created: u64, change: &Change) -> Result<u64, AllocError>
    ensures { IfOk result (λ n. n ≡ spec.schemas_after created change.now) }
{
    match change {
        Change::CreateSchema { .. } => created.checked_add(1).ok_or(AllocError),
        _ => Ok(created),
    }
}

fn tables_after(created: u64, change: &Change) -> Result<u64, AllocError>
    ensures { IfOk result (λ n. n ≡ spec.tables_after created change.now) }
{
    match change {
        Change::CreateTable { .. } => created.checked_add(1).ok_or(AllocError),
        _ => Ok(created),
    }
}

/// The kinds of change that a list makes to a base with these schemas, in the order of a changes text, each once.
///
/// It takes time linear in the list times its different kinds, and searches the list once more for each change of a
/// table that the list drops, and for each insertion into a table of which it leaves no fresh row.
pub fn kinds_of(
    alloc: Global,
    base_names: &SchemaNames,
    own: &ChangeList,
) -> Result<KindList, NoMemory>
    ensures { IfOk result (λ kinds. kinds ≡ spec.kinds base_names.now own.now) }
{
    let mut kinds = Vec::new(alloc);
    let mut created = (0, 0);
    let mut rest = own.as_slice();
    while let [change, more @ ..] = rest {
        add(
            alloc,
            &mut kinds,
            base_names.as_slice(),
            own.as_slice(),
            created,
            change,
        )?;
        created = (
            schemas_after(created.0, change)?,
            tables_after(created.1, change)?,
        );
        rest = more;
    }
    Ok(Listed::from_vec(kinds))
}
