//! The columns that a schema's elements name.

ghost use Rattle.std.specs.Prelude.{◌≡◌, ◌++◌, List, [], MatchOption};
ghost use Rattle.answers.specs.Answers.{Answers, Fails};
ghost use Rattle.pq_meta.specs.Checks.{is_memory};
ghost use Rattle.pq_meta.specs.Columns as spec;

use crate::checks::check_count;
use crate::codes::*;
use crate::drafts::{ElementDraft, IntegerDraft, LogicalDraft, Member};
use crate::fault::MetaFault;
use crate::known::KnownColumns;
use crate::meta::MetaColumn;
use lake_types::{ColType, Listed, Words};
use std::alloc::Global;
use thrift_compact::Text;

/// What a logical or a converted type says of a column's values.
#[derive(Clone, Copy)]
pub enum Meaning {
    /// Neither stands.
    Plain,
    Text,
    Date,
    Int8,
    Int16,
    Int32,
    Int64,
    Other,
}

/// Signed numbers of so many bits.
#[tactic(auto, unfolding(crate::specs::Columns::signed_of))]
fn signed_of(bits: i8) -> Meaning
    ensures { result ≡ spec.signed_of bits }
{
    match bits {
        8 => Meaning::Int8,
        16 => Meaning::Int16,
        32 => Meaning::Int32,
        64 => Meaning::Int64,
        _ => Meaning::Other,
    }
}

fn meaning_of_integer(number: IntegerDraft) -> Meaning
    ensures { result ≡ spec.meaning_of_integer number.bit_width number.signed }
{
    match (number.bit_width, number.signed) {
        (Some(bits), Some(true)) => signed_of(bits),
        _ => Meaning::Other,
    }
}

fn meaning_of_member(member: Option<Member>) -> Meaning
    ensures { result ≡ spec.meaning_of_member member }
{
    match member {
        None | Some(Member::Other) => Meaning::Other,
        Some(Member::Text) => Meaning::Text,
        Some(Member::Date) => Meaning::Date,
        Some(Member::Integer(number)) => meaning_of_integer(number),
    }
}

#[tactic(auto, unfolding(crate::specs::Columns::meaning_of_converted))]
fn meaning_of_converted(code: i32) -> Meaning
    ensures { result ≡ spec.meaning_of_converted code }
{
    match code {
        UTF8 => Meaning::Text,
        DATE => Meaning::Date,
        INT_8 => Meaning::Int8,
        INT_16 => Meaning::Int16,
        INT_32 => Meaning::Int32,
        INT_64 => Meaning::Int64,
        _ => Meaning::Other,
    }
}

/// A logical type decides where it stands, else the converted type.
fn meaning_of(logical: Option<LogicalDraft>, converted: Option<i32>) -> Meaning
    ensures { result ≡ spec.meaning_of logical converted }
{
    match (logical, converted) {
        (Some(logical), _) => meaning_of_member(logical.member),
        (None, Some(code)) => meaning_of_converted(code),
        (None, None) => Meaning::Plain,
    }
}

fn type_of_int32(meaning: Meaning) -> Option<ColType>
    ensures { result ≡ spec.type_of_int32 meaning }
{
    match meaning {
        Meaning::Plain | Meaning::Int32 => Some(ColType::Int32),
        Meaning::Int8 => Some(ColType::Int8),
        Meaning::Int16 => Some(ColType::Int16),
        Meaning::Date => Some(ColType::Date),
        _ => None,
    }
}

fn type_of_int64(meaning: Meaning) -> Option<ColType>
    ensures { result ≡ spec.type_of_int64 meaning }
{
    match meaning {
        Meaning::Plain | Meaning::Int64 => Some(ColType::Int64),
        _ => None,
    }
}

fn type_of_bytes(meaning: Meaning) -> Option<ColType>
    ensures { result ≡ spec.type_of_bytes meaning }
{
    match meaning {
        Meaning::Plain => Some(ColType::Blob),
        Meaning::Text => Some(ColType::Varchar),
        _ => None,
    }
}

/// The type of a column, if it is one of the lake's.
#[tactic(auto, unfolding(crate::specs::Columns::type_of))]
fn type_of(physical: i32, meaning: Meaning) -> Option<ColType>
    ensures { result ≡ spec.type_of physical meaning }
{
    match physical {
        BOOLEAN => Some(ColType::Bool),
        INT32 => type_of_int32(meaning),
        INT64 => type_of_int64(meaning),
        BYTE_ARRAY => type_of_bytes(meaning),
        _ => None,
    }
}

/// A name that is not UTF-8 counts as absent.
#[tactic(auto, using(crate::proofs::NameLemmas::names))]
fn name_of<'a>(name: &Option<Text<'a>>) -> Option<&'a str>
    ensures { MatchOption result (spec.name_of name.now ≡ None)
        (λ text. spec.name_of name.now ≡ Some text.now) }
{
    match name {
        None => None,
        Some(text) => str::from_utf8(text.bytes()).ok(),
    }
}

/// The field id of a column behind earlier ones, if it has one of its own.
fn field_of(earlier: &KnownColumns, field: Option<i32>) -> Option<u32>
    ensures { result ≡ spec.field_of earlier.now field }
{
    let Some(field) = field else { return None };
    if field < 0 {
        return None;
    }
    let id = field as u32;
    if earlier.has_field(id) {
        return None;
    }
    Some(id)
}

/// The column that an element without children names.
#[tactic(auto, unfolding(crate::specs::Columns::leaf_of, crate::specs::Columns::optional_of))]
fn leaf_of(
    alloc: Global,
    earlier: &KnownColumns,
    element: &ElementDraft,
) -> Result<MetaColumn, MetaFault>
    ensures { Answers is_memory result (spec.leaf_of earlier.now element.now) }
{
    let Some(physical) = element.physical else {
        return Err(MetaFault::MissingField { id: 1 });
    };
    let Some(repetition) = element.repetition else {
        return Err(MetaFault::MissingField { id: 3 });
    };
    let Some(name) = name_of(&element.name) else {
        return Err(MetaFault::MissingField { id: 4 });
    };
    let name = Words::of(alloc, name)?;
    let optional = match repetition {
        REQUIRED => false,
        OPTIONAL => true,
        _ => return Err(MetaFault::Nested { name }),
    };
    let Some(ty) = type_of(physical, meaning_of(element.logical, element.converted)) else {
        return Err(MetaFault::UnknownType { code: physical });
    };
    let field = field_of(earlier, element.field);
    Ok(MetaColumn {
        name,
        field,
        ty,
        optional,
    })
}

/// Why an element behind the root that has children is refused.
fn nested_fault(alloc: Global, element: &ElementDraft) -> MetaFault
    ensures { Fails is_memory result (spec.nested_of element.now) }
{
    let Some(name) = name_of(&element.name) else {
        return MetaFault::MissingField { id: 4 };
    };
    match Words::of(alloc, name) {
        Ok(name) => MetaFault::Nested { name },
        Err(_) => MetaFault::Memory,
    }
}

/// The column that an element behind the root names.
#[tactic(auto, unfolding(crate::specs::Columns::column_of))]
fn column_of(
    alloc: Global,
    earlier: &KnownColumns,
    element: &ElementDraft,
) -> Result<MetaColumn, MetaFault>
    ensures { Answers is_memory result (spec.column_of earlier.now element.now) }
{
    if element.num_children.unwrap_or(0) > 0 {
        return Err(nested_fault(alloc, element));
    }
    leaf_of(alloc, earlier, element)
}

/// The columns of these elements, which are the root's children.
#[tactic(auto, using(crate::proofs::ColumnLemmas::columns))]
fn columns_behind(alloc: Global, elements: &[ElementDraft]) -> Result<Listed<MetaColumn>, MetaFault>
    ensures { Answers is_memory result (spec.columns_behind [] elements.now) }
{
    let mut columns = KnownColumns::new(alloc);
    for element in elements {
        match column_of(alloc, &columns, element) {
            Ok(column) => columns = columns.add(column)?,
            Err(fault) => return Err(fault),
        }
    }
    Ok(columns.into_columns())
}

/// The columns of a schema.
#[tactic(auto, using(answers::proofs::AnswerLemmas::handed_on), unfolding(crate::specs::Columns::columns_of))]
pub fn columns_of(alloc: Global, schema: &[ElementDraft]) -> Result<Listed<MetaColumn>, MetaFault>
    ensures { Answers is_memory result (spec.columns_of schema.now) }
{
    let [root, elements @ ..] = schema else {
        return Err(MetaFault::Count { want: 1, got: 0 });
    };
    if name_of(&root.name).is_none() {
        return Err(MetaFault::MissingField { id: 4 });
    }
    let columns = match columns_behind(alloc, elements) {
        Ok(columns) => columns,
        Err(fault) => return Err(fault),
    };
    let stated = root.num_children.unwrap_or(0);
    match check_count(u64::from(stated), elements.len() as u64) {
        Ok(()) => Ok(columns),
        Err(fault) => Err(fault),
    }
}
