ghost use Rattle.std.specs.Prelude.{◌≡◌, IfOk};
ghost use Rattle.cat_tables.specs.Table.{RisesByKey};
ghost use Rattle.cat_rows.specs.Keys.{column_key};
ghost use Rattle.inlined_rules.specs.TermIndex as spec;

use crate::terms::Terms;
use cat_rows::ColumnRow;
use lake_types::{ColType, Listed, NoMemory};
use std::alloc::Global;

const TYPES: [ColType; 8] = [
    ColType::Bool,
    ColType::Int8,
    ColType::Int16,
    ColType::Int32,
    ColType::Int64,
    ColType::Varchar,
    ColType::Blob,
    ColType::Date,
];

/// The terms of one type.
#[derive(Drop)]
pub(crate) struct TypedTerms {
    pub column_type: ColType,
    pub terms: Terms,
}

pub(crate) type TermIndex = Listed<TypedTerms>;

fn typed_terms(alloc: Global, terms: &Terms, column_type: ColType) -> Result<TypedTerms, NoMemory>
    ensures { IfOk result (λ typed. typed ≡ spec.typed_terms terms.now column_type) }
{
    let terms = terms.of_type(alloc, column_type)?;
    Ok(TypedTerms { column_type, terms })
}

fn index_of_terms(alloc: Global, terms: &Terms) -> Result<TermIndex, NoMemory>
    ensures { IfOk result (λ index. index ≡ spec.index_of_terms terms.now) }
{
    let mut index = Listed::new(alloc);
    for column_type in TYPES.iter() {
        index.push(typed_terms(alloc, terms, *column_type)?)?;
    }
    Ok(index)
}

/// The terms of column rows, by type.
pub(crate) fn index_of(alloc: Global, rows: &[ColumnRow]) -> Result<TermIndex, NoMemory>
    requires { RisesByKey column_key rows.now }
    ensures { IfOk result (λ index. index ≡ spec.index_of rows.now) }
{
    let terms = Terms::of_rows(alloc, rows)?;
    index_of_terms(alloc, &terms)
}
