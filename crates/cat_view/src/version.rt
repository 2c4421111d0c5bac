ghost use Rattle.std.specs.Prelude.{◌≡◌, IsSome, Some, map, option_map};
ghost use Rattle.std.specs.Arc.{arc_value};
ghost use Rattle.std.specs.Option.{option_copied};
ghost use Rattle.cat_view.specs.Views as spec;

use crate::live::{LiveFile, TableView};
use file_disk::Held;
use lake_types::{Column, Row, SchemaName, SchemaNames};
use std::sync::Arc;

/// The lake as one snapshot sees it. Its tables are shared with the versions that see them alike.
#[derive(Drop)]
pub struct Version<F> {
    pub schemas: SchemaNames,
    /// Rising by id.
    pub tables: Vec<Arc<TableView<F>>>,
}

/// What a transaction sees: a version, its snapshot, and whether the transaction only reads.
#[derive(Drop)]
pub struct View<F> {
    base: u64,
    read_only: bool,
    version: Arc<Version<F>>,
}

/// The id of the first schema of a name.
fn find_schema(schemas: &[SchemaName], name: &str) -> Option<u64>
    ensures { result ≡ spec.schema_id schemas.now name.now }
{
    for schema in schemas {
        if schema.name.as_str() == name {
            return Some(schema.id);
        }
    }
    None
}

/// The id of the first table of a schema and a name.
fn find_named<F: Held>(tables: &[Arc<TableView<F>>], schema: u64, name: &str) -> Option<u64>
    ensures { result ≡ spec.table_id (spec.named_tables F.name tables.now) schema name.now }
{
    for table in tables {
        if table.head.schema == schema && table.head.name.as_str() == name {
            return Some(table.head.id);
        }
    }
    None
}

/// The table of an id.
fn find_table<F: Held>(tables: &[Arc<TableView<F>>], id: u64) -> Option<&TableView<F>>
    ensures { option_map (spec.named_table F.name) (option_copied result) ≡ spec.table_at (spec.named_tables
        F.name tables.now) id }
{
    for table in tables {
        if table.head.id == id {
            return Some(&**table);
        }
    }
    None
}

impl<F: Held> View<F> {
    /// The view of a transaction on a version, that of the snapshot `base`. It takes no memory.
    pub fn new(base: u64, read_only: bool, version: Arc<Version<F>>) -> View<F>
        ensures base { spec.base_of result ≡ base }
        ensures read_only { spec.only_reads result ≡ read_only }
        ensures version { spec.version_of result ≡ arc_value version }
    {
        View {
            base,
            read_only,
            version,
        }
    }

    pub fn base(&self) -> u64
        ensures { result ≡ spec.base_of self.now }
    {
        self.base
    }

    pub fn read_only(&self) -> bool
        ensures { result ≡ spec.only_reads self.now }
    {
        self.read_only
    }

    /// The version that it sees.
    pub fn version(&self) -> &Version<F>
        ensures { result.now ≡ spec.version_of self.now }
    {
        &*self.version
    }

    /// The visible schemas, rising by id.
    pub fn schemas(&self) -> &SchemaNames
        ensures { result.now ≡ (spec.named_view F.name self.now).schemas }
    {
        &self.version().schemas
    }

    /// The visible tables, rising by id.
    pub fn tables(&self) -> &[Arc<TableView<F>>]
        ensures { spec.named_tables F.name result.now ≡ (spec.named_view F.name self.now).tables }
    {
        self.version().tables.as_slice()
    }

    /// The id of the schema of a name.
    pub fn schema(&self, name: &str) -> Option<u64>
        ensures { result ≡ spec.schema_id (spec.named_view F.name self.now).schemas name.now }
    {
        find_schema(self.schemas().as_slice(), name)
    }

    /// The id of the table of a schema and a name.
    pub fn table(&self, schema: u64, name: &str) -> Option<u64>
        ensures { result ≡ spec.table_id (spec.named_view F.name self.now).tables schema name.now }
    {
        find_named(self.tables(), schema, name)
    }

    /// The table of an id, if it is visible.
    pub fn find(&self, table: u64) -> Option<&TableView<F>>
        ensures { option_map (spec.named_table F.name) (option_copied result) ≡ spec.table_at (spec.named_view
            F.name self.now).tables table }
    {
        find_table(self.tables(), table)
    }

    /// The table of an id.
    fn visible(&self, table: u64) -> &TableView<F>
        requires { IsSome (spec.table_at (spec.named_view F.name self.now).tables table) }
        ensures { Some (spec.named_table F.name result.now) ≡ spec.table_at (spec.named_view F.name
            self.now).tables table }
    {
        match self.find(table) {
            Some(table) => table,
            None => unreachable!(),
        }
    }

    /// A visible table's columns, in their order.
    pub fn columns(&self, table: u64) -> &[Column]
        requires { IsSome (spec.table_at (spec.named_view F.name self.now).tables table) }
        ensures { Some result.now ≡ option_map (λ x. x.columns) (spec.table_at (spec.named_view F.name
            self.now).tables table) }
    {
        self.visible(table).columns.as_slice()
    }

    /// A visible table's data files, rising by id.
    pub fn files(&self, table: u64) -> &[Arc<LiveFile<F>>]
        requires { IsSome (spec.table_at (spec.named_view F.name self.now).tables table) }
        ensures { Some (map (λ f. spec.named_file F.name (arc_value f)) result.now) ≡ option_map (λ x.
            x.files) (spec.table_at (spec.named_view F.name self.now).tables table) }
    {
        self.visible(table).files.as_slice()
    }

    /// A visible table's rows that lie in the catalogue, rising by id.
    pub fn inlined(&self, table: u64) -> &[Arc<Row>]
        requires { IsSome (spec.table_at (spec.named_view F.name self.now).tables table) }
        ensures { Some (map (λ r. arc_value r) result.now) ≡ option_map (λ x. x.inlined) (spec.table_at
            (spec.named_view F.name self.now).tables table) }
    {
        self.visible(table).inlined.as_slice()
    }

    /// The id that a visible table's next row gets.
    pub fn next_row(&self, table: u64) -> u64
        requires { IsSome (spec.table_at (spec.named_view F.name self.now).tables table) }
        ensures { Some result ≡ option_map (λ x. x.next_row) (spec.table_at (spec.named_view F.name
            self.now).tables table) }
    {
        self.visible(table).next_row
    }

    /// The field id that a visible table's next column gets.
    pub fn next_field(&self, table: u64) -> u32
        requires { IsSome (spec.table_at (spec.named_view F.name self.now).tables table) }
        ensures { Some result ≡ option_map (λ x. x.next_field) (spec.table_at (spec.named_view F.name
            self.now).tables table) }
    {
        self.visible(table).next_field
    }
}
