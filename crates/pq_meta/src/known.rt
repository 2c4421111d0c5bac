ghost use Rattle.std.specs.Prelude.{◌≡◌, ◌++◌, ◌∷◌, [], IfOk};
ghost use Rattle.pq_meta.specs.Columns as spec;

use crate::meta::MetaColumn;
use lake_types::{Listed, NoMemory};
use std::alloc::Global;
use std::collections::BTreeSet;
use std::marker::Model;

/// The columns that were read so far, in order, and the field ids that they have. Contracts see the columns.
#[derive(Drop)]
pub struct KnownColumns {
    columns: Listed<MetaColumn>,
    fields: BTreeSet<u32>,
}

impl Model for KnownColumns {
    ghost use Rattle.std.specs.Prelude.{◌≡◌, ℕ, List};
    ghost use Rattle.std.specs.Ordering.{nat_cmp};
    ghost use Rattle.std.specs.BTreeSet as set;
    ghost use Rattle.pq_meta.specs.declared.meta.MetaColumn.{MetaColumn};
    ghost use Rattle.pq_meta.specs.Columns.{has_field};

    ghost Value = { List MetaColumn };

    ghost view = { λ k. k.columns };

    ghost invariant = { λ k. (id : ℕ) → set.contains nat_cmp k.fields id ≡ has_field k.columns id };
}

impl KnownColumns {
    /// No columns. It takes no memory.
    pub fn new(alloc: Global) -> KnownColumns
        ensures { result ≡ [] }
    {
        KnownColumns {
            columns: Listed::new(alloc),
            fields: BTreeSet::new(alloc),
        }
    }

    /// Whether a column has this field id.
    pub fn has_field(&self, id: u32) -> bool
        ensures { result ≡ spec.has_field self.now id }
    {
        self.fields.contains(&id)
    }

    /// These columns and one more, at the end.
    #[tactic(auto, using(crate::proofs::KnownLemmas::known))]
    pub fn add(self, column: MetaColumn) -> Result<KnownColumns, NoMemory>
        ensures { IfOk result (λ known. known ≡ self ++ column ∷ []) }
    {
        let KnownColumns {
            mut columns,
            mut fields,
        } = self;
        if let Some(id) = column.field {
            fields.insert(id)?;
        }
        columns.push(column)?;
        Ok(KnownColumns { columns, fields })
    }

    /// The columns alone. It takes no memory.
    pub fn into_columns(self) -> Listed<MetaColumn>
        ensures { result ≡ self }
    {
        let KnownColumns { columns, fields: _ } = self;
        columns
    }
}
