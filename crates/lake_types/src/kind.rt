ghost use Rattle.std.specs.Prelude.{◌≡◌};
ghost use Rattle.lake_types.specs.Kinds as spec;

use crate::lists::{Copied, Listed};
use crate::words::Words;
use std::alloc::{AllocError, Global};
use std::cmp::Ordering;

/// What a list of changes does to one schema or table, as the conflict rules see it. Ids are of the catalogue.
#[derive(Debug, Drop)]
pub enum Kind {
    CreatedSchema { name: Words },
    CreatedTable { schema: Words, name: Words },
    InsertedInto { table: u64 },
    DeletedFrom { table: u64 },
    Compacted { table: u64 },
    DroppedSchema { id: u64, name: Words },
    DroppedTable { table: u64 },
    Altered { table: u64 },
}

impl Copied for Kind {
    fn copy(&self, alloc: Global) -> Result<Kind, AllocError> {
        match self {
            Kind::CreatedSchema { name } => Ok(Kind::CreatedSchema {
                name: name.copy(alloc)?,
            }),
            Kind::CreatedTable { schema, name } => Ok(Kind::CreatedTable {
                schema: schema.copy(alloc)?,
                name: name.copy(alloc)?,
            }),
            Kind::InsertedInto { table } => Ok(Kind::InsertedInto { table: *table }),
            Kind::DeletedFrom { table } => Ok(Kind::DeletedFrom { table: *table }),
            Kind::Compacted { table } => Ok(Kind::Compacted { table: *table }),
            Kind::DroppedSchema { id, name } => Ok(Kind::DroppedSchema {
                id: *id,
                name: name.copy(alloc)?,
            }),
            Kind::DroppedTable { table } => Ok(Kind::DroppedTable { table: *table }),
            Kind::Altered { table } => Ok(Kind::Altered { table: *table }),
        }
    }
}

impl Kind {
    /// The place of a kind's sort in a changes text.
    fn rank(&self) -> u8
        ensures { result ≡ spec.rank self.now }
    {
        match self {
            Kind::CreatedSchema { .. } => 0,
            Kind::CreatedTable { .. } => 1,
            Kind::InsertedInto { .. } => 2,
            Kind::DeletedFrom { .. } => 3,
            Kind::Compacted { .. } => 4,
            Kind::DroppedSchema { .. } => 5,
            Kind::DroppedTable { .. } => 6,
            Kind::Altered { .. } => 7,
        }
    }

    /// The order of kinds in a changes text: by sort, then by id or by the bytes of the names.
    pub fn compare(&self, other: &Kind) -> Ordering
        ensures { result ≡ spec.kind_cmp self.now other.now }
    {
        match (self, other) {
            (Kind::CreatedSchema { name: a }, Kind::CreatedSchema { name: b }) => {
                a.as_str().as_bytes().cmp(b.as_str().as_bytes())
            }
            (
                Kind::CreatedTable { schema: a, name: c },
                Kind::CreatedTable { schema: b, name: d },
            ) => {
                let schemas = a.as_str().as_bytes().cmp(b.as_str().as_bytes());
                schemas.then(c.as_str().as_bytes().cmp(d.as_str().as_bytes()))
            }
            (Kind::InsertedInto { table: a }, Kind::InsertedInto { table: b }) => a.cmp(b),
            (Kind::DeletedFrom { table: a }, Kind::DeletedFrom { table: b }) => a.cmp(b),
            (Kind::Compacted { table: a }, Kind::Compacted { table: b }) => a.cmp(b),
            (Kind::DroppedSchema { id: a, .. }, Kind::DroppedSchema { id: b, .. }) => a.cmp(b),
            (Kind::DroppedTable { table: a }, Kind::DroppedTable { table: b }) => a.cmp(b),
            (Kind::Altered { table: a }, Kind::Altered { table: b }) => a.cmp(b),
            _ => self.rank().cmp(&other.rank()),
        }
    }
}

pub type KindList = Listed<Kind>;

/// A conflict: what the committing list does, and what the snapshot past its base has done.
#[derive(Debug, Drop)]
pub struct Clash {
    pub snapshot: u64,
    pub mine: Kind,
    pub theirs: Kind,
}

impl Copied for Clash {
    fn copy(&self, alloc: Global) -> Result<Clash, AllocError> {
        Ok(Clash {
            snapshot: self.snapshot,
            mine: self.mine.copy(alloc)?,
            theirs: self.theirs.copy(alloc)?,
        })
    }
}

/// A schema's id and name.
#[derive(Debug, Drop)]
pub struct SchemaName {
    pub id: u64,
    pub name: Words,
}

impl Copied for SchemaName {
    fn copy(&self, alloc: Global) -> Result<SchemaName, AllocError> {
        Ok(SchemaName {
            id: self.id,
            name: self.name.copy(alloc)?,
        })
    }
}

pub type SchemaNames = Listed<SchemaName>;
