ghost use Rattle.std.specs.Prelude.{◌≡◌, ◌++◌, ◌∷◌, [], IfOk, OnOk, decimal};
ghost use Rattle.std.specs.String.{string_bytes};
ghost use Rattle.cat_rules.specs.Named as spec;

use cat_rows::Key;
use itoa::Buffer;
use lake_types::{Copied, NoMemory, Words};
use std::alloc::Global;

/// A row that breaks a rule, or that is missing by one.
#[derive(Debug, Drop)]
pub struct BadRow {
    pub table: Words,
    /// The key's columns in the table's order, joined by commas.
    pub key: Words,
    /// The rule's number, from 1 to 12.
    pub rule: u8,
}

fn push_number(text: &mut String, number: u64) -> Result<(), NoMemory>
    ensures { OnOk result (string_bytes text.new ≡ string_bytes text.old ++ decimal number) }
{
    let mut buffer = Buffer::new();
    text.push_str(buffer.format(number))?;
    Ok(())
}

fn push_further(text: &mut String, number: u64) -> Result<(), NoMemory>
    ensures { OnOk result (string_bytes text.new ≡ string_bytes text.old ++ 44 ∷ decimal number) }
{
    text.push_str(",")?;
    push_number(text, number)?;
    Ok(())
}

fn number_text(alloc: Global, number: u64) -> Result<Words, NoMemory>
    ensures { IfOk result (λ text. text ≡ spec.numbers_text (number ∷ [])) }
{
    let mut text = String::new(alloc);
    push_number(&mut text, number)?;
    Ok(Words::from_string(text))
}

fn pair_text(alloc: Global, first: u64, second: u64) -> Result<Words, NoMemory>
    ensures { IfOk result (λ text. text ≡ spec.numbers_text (first ∷ second ∷ [])) }
{
    let mut text = String::new(alloc);
    push_number(&mut text, first)?;
    push_further(&mut text, second)?;
    Ok(Words::from_string(text))
}

fn triple_text(alloc: Global, first: u64, second: u64, third: u64) -> Result<Words, NoMemory>
    ensures { IfOk result (λ text. text ≡ spec.numbers_text (first ∷ second ∷ third ∷ [])) }
{
    let mut text = String::new(alloc);
    push_number(&mut text, first)?;
    push_further(&mut text, second)?;
    push_further(&mut text, third)?;
    Ok(Words::from_string(text))
}

fn key_text(alloc: Global, key: &Key) -> Result<Words, NoMemory>
    ensures { IfOk result (λ text. text ≡ spec.key_text key.now) }
{
    match key {
        Key::Metadata(text) | Key::ScheduledFile(text) => text.copy(alloc),
        Key::Snapshot(id)
        | Key::SnapshotChanges(id)
        | Key::Schema(id)
        | Key::Table(id)
        | Key::DataFile(id)
        | Key::DeleteFile(id)
        | Key::TableStats(id) => number_text(alloc, *id),
        Key::FileColumnStats(file, column) => pair_text(alloc, *file, *column),
        Key::Column(table, id, begin) | Key::Inlined(table, id, begin) => triple_text(
            alloc, *table, *id, *begin,
        ),
    }
}

fn table_name(key: &Key) -> &'static str
    ensures { result.now ≡ spec.table_name key.now }
{
    match key {
        Key::Metadata(_) => "ducklake_metadata",
        Key::Snapshot(_) => "ducklake_snapshot",
        Key::SnapshotChanges(_) => "ducklake_snapshot_changes",
        Key::Schema(_) => "ducklake_schema",
        Key::Table(_) => "ducklake_table",
        Key::Column(_, _, _) => "ducklake_column",
        Key::DataFile(_) => "ducklake_data_file",
        Key::DeleteFile(_) => "ducklake_delete_file",
        Key::FileColumnStats(_, _) => "ducklake_file_column_stats",
        Key::TableStats(_) => "ducklake_table_stats",
        Key::Inlined(_, _, _) => "ducklake_inlined_row",
        Key::ScheduledFile(_) => "ducklake_scheduled_file",
    }
}

impl BadRow {
    ghost use Rattle.cat_rules.specs.Named.{Tells};

    /// What is told of a bad row.
    pub fn of(alloc: Global, key: &Key, rule: u8) -> Result<BadRow, NoMemory>
        ensures { IfOk result (λ bad. Tells bad rule key.now) }
    {
        Ok(BadRow {
            table: Words::of(alloc, table_name(key))?,
            key: key_text(alloc, key)?,
            rule,
        })
    }
}
