use lake_model::{Change, ChangeList, Ref, kinds_of};
use lake_types::{CellValues, Kind, Listed, SchemaName, SchemaNames, Value, Words};
use std::alloc::{AllocError, Global};
use std::test::Fail;

fn base_names(alloc: Global) -> Result<SchemaNames, AllocError> {
    let mut names = Listed::new(alloc);
    names.push(SchemaName {
        id: 0,
        name: Words::of(alloc, "main")?,
    })?;
    Ok(names)
}

fn one_row(alloc: Global) -> Result<Listed<CellValues>, AllocError> {
    let mut cells = Listed::new(alloc);
    cells.push((1, Value::Int(7)))?;
    let mut rows = Listed::new(alloc);
    rows.push(cells)?;
    Ok(rows)
}

/// A table is dropped, rows are inserted into another one twice, and a schema is created.
fn own_list(alloc: Global) -> Result<ChangeList, AllocError> {
    let table = Ref::Old(1);
    let mut own = Listed::new(alloc);
    own.push(Change::DropTable { table: Ref::Old(2) })?;
    own.push(Change::Insert {
        table,
        rows: one_row(alloc)?,
    })?;
    own.push(Change::Insert {
        table,
        rows: one_row(alloc)?,
    })?;
    own.push(Change::CreateSchema {
        name: Words::of(alloc, "s")?,
    })?;
    Ok(own)
}

fn are_expected(kinds: &[Kind]) -> bool {
    kinds.len() == 3
        && matches!(&kinds[0], Kind::CreatedSchema { .. })
        && matches!(&kinds[1], Kind::InsertedInto { table: 1 })
        && matches!(&kinds[2], Kind::DroppedTable { table: 2 })
}

#[test]
fn kinds_of_a_list(rt: HostRuntime) -> Result<(), Fail> {
    let alloc = rt.alloc();
    let kinds = kinds_of(alloc, &base_names(alloc)?, &own_list(alloc)?)?;
    assert_eq!(rt; are_expected(kinds.as_slice()), true);
    Ok(())
}
