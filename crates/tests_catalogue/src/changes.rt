use cat_changes::{BadChanges, changes_text, read_changes};
use lake_types::{Kind, KindList, Listed, SchemaName, SchemaNames, Words};
use std::alloc::{AllocError, Global};
use std::test::Fail;

/// Of each kind one or more, with quotes, commas, points and line feeds in the names.
const EACH_KIND: &str = "created_schema:\"a\"\"b,\nc\",created_schema:\"b\",\
     created_table:\"\".\"\"\"\",\
     created_table:\"main\".\"t\",created_table:\"main\".\"t\"\".\"\"u\",\
     inserted_into_table:2,inserted_into_table:10,\
     deleted_from_table:2,compacted_table:0,dropped_schema:3,dropped_schema:7,\
     dropped_table:18446744073709551615,altered_table:1";

fn schema(alloc: Global, id: u64, name: &str) -> Result<SchemaName, AllocError> {
    let name = Words::of(alloc, name)?;
    Ok(SchemaName { id, name })
}

/// Schema 7 is "x,y", schema 3 is "z" and not "w".
fn schemas(alloc: Global) -> Result<SchemaNames, AllocError> {
    let mut schemas = Listed::new(alloc);
    schemas.push(schema(alloc, 7, "x,y")?)?;
    schemas.push(schema(alloc, 3, "z")?)?;
    schemas.push(schema(alloc, 3, "w")?)?;
    Ok(schemas)
}

/// What a kind is of: its id or its names.
fn subject(alloc: Global, kind: &Kind) -> Result<String, AllocError> {
    match kind {
        Kind::CreatedSchema { name } => String::from_str(alloc, name.as_str()),
        Kind::CreatedTable { schema, name } => {
            let schema = schema.as_str();
            let name = name.as_str();
            format!(in alloc; "{schema}|{name}")
        }
        Kind::DroppedSchema { id, name } => {
            let name = name.as_str();
            format!(in alloc; "{id} {name}")
        }
        Kind::InsertedInto { table }
        | Kind::DeletedFrom { table }
        | Kind::Compacted { table }
        | Kind::DroppedTable { table }
        | Kind::Altered { table } => format!(in alloc; "{table}"),
    }
}

#[test]
fn each_kind_both_ways(rt: HostRuntime) -> Result<(), Fail> {
    let alloc = rt.alloc();
    let kinds = read_changes(alloc, EACH_KIND, &schemas(alloc)?)?;
    let subjects = [
        "a\"b,\nc",
        "b",
        "|\"",
        "main|t",
        "main|t\".\"u",
        "2",
        "10",
        "2",
        "0",
        "3 z",
        "7 x,y",
        "18446744073709551615",
        "1",
    ];
    assert_eq!(rt; kinds.len(), subjects.len());
    for (kind, wanted) in kinds.as_slice().iter().zip(subjects.iter()) {
        assert_eq!(rt; subject(alloc, kind)?.as_str(), *wanted);
    }
    let text = changes_text(alloc, &kinds)?;
    assert_eq!(rt; text.as_str(), EACH_KIND);
    Ok(())
}

#[test]
fn no_kinds_have_an_empty_text(rt: HostRuntime) -> Result<(), Fail> {
    let alloc = rt.alloc();
    let none = Listed::new(alloc);
    let kinds: KindList = read_changes(alloc, "", &none)?;
    assert_eq!(rt; kinds.is_empty(), true);
    assert_eq!(rt; changes_text(alloc, &kinds)?.as_str(), "");
    Ok(())
}

fn fault(alloc: Global, text: &str, schemas: &SchemaNames) -> Option<BadChanges> {
    read_changes(alloc, text, schemas).err()
}

#[test]
fn places_of_what_is_wrong(rt: HostRuntime) -> Result<(), Fail> {
    let alloc = rt.alloc();
    let schemas = schemas(alloc)?;
    let cases = [
        (",", 0),
        ("created_schema", 0),
        ("flushed_table:1", 0),
        ("created_schema:main", 0),
        ("created_schema:\"main", 0),
        ("created_schema:\"a\"b\"", 0),
        ("created_schema:\"main\",", 22),
        ("created_table:\"main\"\"t\"", 0),
        ("altered_table:", 0),
        ("altered_table:01", 0),
        ("altered_table:+1", 0),
        ("altered_table:18446744073709551616", 0),
        ("altered_table:1, altered_table:2", 16),
        ("altered_table:1,altered_table:1", 16),
        ("altered_table:2,altered_table:1", 16),
        ("dropped_table:1,inserted_into_table:2", 16),
        ("dropped_schema:8,dropped_schema:x", 17),
    ];
    for (text, place) in cases.iter() {
        let wanted = BadChanges::Text { at: *place };
        assert_eq!(rt; fault(alloc, text, &schemas), Some(wanted));
    }
    Ok(())
}

#[test]
fn a_schema_without_a_name(rt: HostRuntime) -> Result<(), Fail> {
    let alloc = rt.alloc();
    let schemas = schemas(alloc)?;
    let text = "dropped_schema:3,dropped_schema:8,dropped_schema:9";
    let wanted = BadChanges::NoSchema { id: 8 };
    assert_eq!(rt; fault(alloc, text, &schemas), Some(wanted));
    Ok(())
}
