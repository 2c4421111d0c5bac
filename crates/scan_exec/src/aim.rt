ghost use Rattle.std.specs.Prelude.{◌≡◌, ◌≢◌, ℕ, List, map, Option, Some, None, option_map, IfOk, IfErr, IfSome, IsSome};
ghost use Rattle.std.specs.Arc.{arc_value};
ghost use Rattle.std.specs.List.{AllByRecursion, Contains};
ghost use Rattle.std.specs.Option.{option_copied};
ghost use Rattle.lake_types.specs.declared.pred.Pred.{Pred};
ghost use Rattle.lake_model.specs.Apply.{drafted, fields_from, worked};
ghost use Rattle.lake_model.specs.Growth.{IsGrowth, with_own_rows};
ghost use Rattle.cat_view.specs.Files.{Files};
ghost use Rattle.cat_view.specs.Named.{state_of, table_of};
ghost use Rattle.cat_view.specs.Views.{named_table, named_view, version_of};
ghost use Rattle.scan_exec.specs.Aims as spec;
ghost use Rattle.scan_exec.specs.Finding.{made_draft, old_named};
ghost use Rattle.scan_exec.specs.Refusals.{refusal, told};
ghost use Rattle.scan_exec.specs.declared.fault.ScanFault.TheVariants.{Memory};

use crate::fault::ScanFault;
use crate::finding::{Made, made_table, old_table, schema_of};
use cat_view::{TableView, View};
use file_disk::Held;
use lake_model::{Change, Ref};
use lake_types::{Column, ColumnList, Copied, NoMemory, TableName};
use std::alloc::{AllocError, Global};

/// The table of a SELECT.
#[derive(Drop)]
pub struct Aim<'a, F> {
    pub table: Ref,
    pub columns: ColumnList,
    /// The id that its next row gets.
    pub next_row: u64,
    /// The version's table; none where the own list creates it.
    pub old: Option<&'a TableView<F>>,
    /// The changes that may insert rows into it.
    pub own: &'a [Change],
}

/// Columns that have the field ids 1, 2, .. in their order.
pub fn made_columns(alloc: Global, columns: &[Column]) -> Result<ColumnList, NoMemory>
    ensures { IfOk result (λ made. made ≡ fields_from 1 columns.now) }
{
    let mut made = ColumnList::new(alloc);
    let mut field = 1u32;
    for column in columns {
        let mut copy = column.copy(alloc)?;
        copy.field = field;
        made.push(copy)?;
        let Some(next) = field.checked_add(1) else {
            return Err(AllocError);
        };
        field = next;
    }
    Ok(made)
}

/// The aim at a table of the version.
fn old_aim<'a, F: Held>(
    alloc: Global,
    table: &'a TableView<F>,
    own: &'a [Change],
) -> Result<Aim<'a, F>, NoMemory>
    ensures draft { IfOk result (λ a. (files : Files) → spec.IsDraftOf F.name files a
        (with_own_rows own.now (drafted (table_of files (named_table F.name table.now))))) }
    ensures old { IfOk result (λ a. option_copied a.old ≡ Some table.now) }
{
    Ok(Aim {
        table: Ref::Old(table.head.id),
        columns: table.columns.copy(alloc)?,
        next_row: table.next_row,
        old: Some(table),
        own,
    })
}

/// The aim at a table that the own list creates.
fn made_aim<'a, F: Held>(alloc: Global, made: &Made<'a>) -> Result<Aim<'a, F>, NoMemory>
    ensures draft { IfOk result (λ a. (files : Files) → spec.IsDraftOf F.name files a (made_draft made.now)) }
    ensures old { IfOk result (λ a. option_copied a.old ≡ None) }
{
    Ok(Aim {
        table: Ref::New(made.place),
        columns: made_columns(alloc, made.columns)?,
        next_row: 0,
        old: None,
        own: made.own,
    })
}

/// The table that a statement names, with an own list in effect.
pub fn aim_of<'a, F: Held>(
    alloc: Global,
    view: &'a View<F>,
    own: &'a [Change],
    table: &TableName,
) -> Result<Aim<'a, F>, ScanFault>
    requires grows { AllByRecursion IsGrowth own.now }
    ensures aimed { IfOk result (λ a. (files : Files) (next : ℕ) → spec.IsAimedAt F.name files
        (worked (state_of files next (named_view F.name view.now)) own.now) table.now a) }
    ensures old { IfOk result (λ a. option_map (named_table F.name) (option_copied a.old)
        ≡ old_named own.now (named_view F.name view.now) table.now) }
    ensures held { IfOk result (λ a. IfSome (option_copied a.old)
        (Contains (map (λ x. arc_value x) (version_of view.now).tables.items))) }
    ensures known { IfErr result (λ why. why ≢ Memory → IsSome (told table.now why)) }
    ensures refused { IfErr result (λ why. why ≢ Memory →
        (files : Files) (next : ℕ) (names : Option (List (List ℕ))) (test : Option Pred) →
        refusal (worked (state_of files next (named_view F.name view.now)) own.now) table.now names test
        ≡ told table.now why) }
{
    let name = table.table.as_str();
    let version = view.version();
    let Some(schema) = schema_of(version.schemas.as_slice(), own, table.schema.as_str()) else {
        return Err(ScanFault::NoSchema);
    };
    if let Some(old) = old_table(version.tables.as_slice(), own, schema, name) {
        return match old_aim(alloc, old, own) {
            Ok(aim) => Ok(aim),
            Err(_) => Err(ScanFault::Memory),
        };
    }
    let Some(made) = made_table(own, schema, name) else {
        return Err(ScanFault::NoTable);
    };
    match made_aim(alloc, &made) {
        Ok(aim) => Ok(aim),
        Err(_) => Err(ScanFault::Memory),
    }
}
