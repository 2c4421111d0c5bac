//! The rows that a transaction sees of a table with two files: its own rows behind them, damage, and a disk
//! that fails.
ghost use Rattle.std.specs.Prelude.{◌≤◌, IfOk};
ghost use Rattle.std.specs.List.{AllByRecursion};
ghost use Rattle.lake_model.specs.Growth.{IsGrowth};
ghost use Rattle.scan_exec.specs.Telling.{HasIds, HasViewIds, HaveIds};

use cat_view::{LiveFile, StatsList, TableHead, TableView, Version, View};
use file_disk::{FileDisk, MemDisk, MemFile};
use lake_io::FailList;
use lake_model::{Change, ChangeList, Ref, RowRef, Txn};
use lake_types::{
    CellValues, ColType, Column, ColumnList, Listed, NoMemory, Op, Pred, Row, SchemaName,
    SchemaNames, TableName, Value, Words, cell_at,
};
use scan_exec::{Scan, ScanFault, scan};
use sqlite_items::Boxed;
use std::alloc::Global;
use std::sync::Arc;
use std::test::Fail;

/// A file of one column `a`, an INT64 with the field id 1, and of two rows, 7 and NULL.
const FILE: [u8; 107] = [
    0x50, 0x41, 0x52, 0x31, 0x15, 0x00, 0x15, 0x20, 0x15, 0x20, 0x2c, 0x15, 0x04, 0x15, 0x00, 0x15,
    0x06, 0x15, 0x06, 0x00, 0x00, 0x04, 0x00, 0x00, 0x00, 0x02, 0x01, 0x02, 0x00, 0x07, 0x00, 0x00,
    0x00, 0x00, 0x00, 0x00, 0x00, 0x15, 0x02, 0x19, 0x2c, 0x48, 0x06, 0x73, 0x63, 0x68, 0x65, 0x6d,
    0x61, 0x15, 0x02, 0x00, 0x15, 0x04, 0x25, 0x02, 0x18, 0x01, 0x61, 0x55, 0x02, 0x00, 0x16, 0x04,
    0x19, 0x1c, 0x19, 0x1c, 0x26, 0x08, 0x1c, 0x15, 0x04, 0x19, 0x25, 0x00, 0x06, 0x19, 0x18, 0x01,
    0x61, 0x15, 0x00, 0x16, 0x04, 0x16, 0x42, 0x16, 0x42, 0x26, 0x08, 0x00, 0x00, 0x16, 0x42, 0x16,
    0x04, 0x00, 0x00, 0x3e, 0x00, 0x00, 0x00, 0x50, 0x41, 0x52, 0x31,
];

/// Which rows a SELECT is of.
#[derive(Clone, Copy)]
enum Chosen {
    All,
    Below8,
    NotBelow8,
}

/// A SELECT of one column, or of all (`*`), after the files named `cut` and `gone` were cut off by a byte and removed.
#[derive(Clone, Copy)]
struct Select {
    chosen: Chosen,
    column: &'static str,
    cut: &'static str,
    gone: &'static str,
    /// The call of the disk that fails. The first two find the files, the third and the fourth read them.
    fails: u64,
    told: &'static str,
}

const SELECT: Select = Select {
    chosen: Chosen::All,
    column: "a",
    cut: "",
    gone: "",
    fails: 9,
    told: "0 7 old 0;1 NULL old 1;2 7 old 2;3 NULL old 3;4 9 fresh 0;5 3 fresh 1;",
};

const SELECTS: [Select; 11] = [
    SELECT,
    Select {
        column: "*",
        ..SELECT
    },
    Select {
        chosen: Chosen::Below8,
        told: "0 7 old 0;2 7 old 2;5 3 fresh 1;",
        ..SELECT
    },
    // An unknown test stays unknown under NOT.
    Select {
        chosen: Chosen::NotBelow8,
        told: "4 9 fresh 0;",
        ..SELECT
    },
    Select {
        column: "b",
        cut: "one",
        told: "no column b",
        ..SELECT
    },
    Select {
        cut: "two",
        told: "damaged two",
        ..SELECT
    },
    Select {
        gone: "one",
        told: "damaged one",
        ..SELECT
    },
    Select {
        cut: "one",
        gone: "two",
        told: "damaged one",
        ..SELECT
    },
    Select {
        fails: 3,
        told: "disk fault",
        ..SELECT
    },
    Select {
        fails: 4,
        told: "disk fault",
        ..SELECT
    },
    Select {
        cut: "one",
        fails: 4,
        told: "damaged one",
        ..SELECT
    },
];

/// Lays a file of this name on the disk, and holds it.
fn laid(
    alloc: Global,
    disk: &mut MemDisk,
    name: &str,
    cut: &str,
) -> Result<Option<MemFile>, NoMemory> {
    let file = Words::of(alloc, name)?;
    let bytes = if name == cut { &FILE[..106] } else { &FILE[..] };
    disk.plant(alloc, &file, bytes)?;
    match disk.find(alloc, &file) {
        Ok(found) => Ok(found),
        Err(_) => Ok(None),
    }
}

fn live_file(alloc: Global, id: u64, first: u64, file: MemFile) -> LiveFile<MemFile>
    requires { first ≤ 2 }
    ensures { HasIds result }
{
    LiveFile {
        id,
        file,
        rows: 2,
        weight: 41,
        first_row: Some(first),
        deletes: None,
        stats: StatsList::new(alloc),
    }
}

fn columns(alloc: Global) -> Result<ColumnList, NoMemory> {
    let mut columns = ColumnList::new(alloc);
    columns.push(Column {
        field: 1,
        name: Words::of(alloc, "a")?,
        ty: ColType::Int64,
        initial: Value::Null,
        default_value: Value::Null,
        nulls: true,
    })?;
    Ok(columns)
}

/// The table `t` of two files.
fn table_of(alloc: Global, one: MemFile, two: MemFile) -> Result<TableView<MemFile>, NoMemory>
    ensures { IfOk result (λ table. HaveIds table.files.items) }
{
    let one = Arc::new(alloc, live_file(alloc, 0, 0, one))?;
    let two = Arc::new(alloc, live_file(alloc, 1, 2, two))?;
    Ok(TableView {
        head: TableHead {
            id: 1,
            schema: 0,
            name: Words::of(alloc, "t")?,
        },
        columns: columns(alloc)?,
        files: vec![in alloc; one, two]?,
        inlined: Vec::new(alloc),
        next_row: 4,
        next_field: 2,
    })
}

/// The view of a version with this table alone.
fn view_of(alloc: Global, table: TableView<MemFile>) -> Result<View<MemFile>, NoMemory>
    requires { HaveIds table.files.items }
    ensures { IfOk result (λ view. HasViewIds view) }
{
    let mut schemas = SchemaNames::new(alloc);
    schemas.push(SchemaName {
        id: 0,
        name: Words::of(alloc, "main")?,
    })?;
    let table = Arc::new(alloc, table)?;
    let tables = vec![in alloc; table]?;
    let version = Arc::new(alloc, Version { schemas, tables })?;
    Ok(View::new(2, false, version))
}

/// The rows 9 and 3.
fn own_rows(alloc: Global) -> Result<Listed<CellValues>, NoMemory> {
    let mut rows = Listed::new(alloc);
    for number in [9, 3] {
        let mut cells = CellValues::new(alloc);
        cells.push((1, Value::Int(number)))?;
        rows.push(cells)?;
    }
    Ok(rows)
}

/// A transaction that inserts these rows.
fn txn(alloc: Global) -> Result<Txn, NoMemory>
    ensures { IfOk result (λ txn. AllByRecursion IsGrowth txn.own) }
{
    let rows = own_rows(alloc)?;
    let mut own = ChangeList::new(alloc);
    own.push(Change::Insert {
        table: Ref::Old(1),
        rows,
    })?;
    Ok(Txn {
        base: 2,
        read_only: false,
        own,
    })
}

fn below_8(alloc: Global) -> Result<Pred, NoMemory> {
    Ok(Pred::Compare {
        name: Words::of(alloc, "a")?,
        op: Op::Lt,
        value: Value::Int(8),
    })
}

fn test_of(alloc: Global, chosen: Chosen) -> Result<Option<Pred>, NoMemory> {
    match chosen {
        Chosen::All => Ok(None),
        Chosen::Below8 => Ok(Some(below_8(alloc)?)),
        Chosen::NotBelow8 => Ok(Some(Pred::Not(Boxed::new(alloc, below_8(alloc)?)?))),
    }
}

/// A row's id and its one cell.
fn row_text(alloc: Global, row: &Row) -> Result<String, NoMemory> {
    let id = row.id;
    match cell_at(row.cells.as_slice(), 1) {
        Some(Value::Int(number)) => format!(in alloc; "{id} {number}"),
        Some(Value::Null) => format!(in alloc; "{id} NULL"),
        _ => format!(in alloc; "{id} another cell"),
    }
}

fn ref_text(alloc: Global, row: RowRef) -> Result<String, NoMemory> {
    match row {
        RowRef::Old(id) => format!(in alloc; " old {id};"),
        RowRef::Fresh(place) => format!(in alloc; " fresh {place};"),
    }
}

fn scan_text(alloc: Global, scan: &Scan) -> Result<String, NoMemory> {
    let mut text = String::new(alloc);
    for (row, at) in scan.rows.as_slice().iter().zip(scan.refs.iter()) {
        text.push_str(row_text(alloc, row)?.as_str())?;
        text.push_str(ref_text(alloc, *at)?.as_str())?;
    }
    Ok(text)
}

fn fault_text(alloc: Global, why: &ScanFault) -> Result<String, NoMemory> {
    match why {
        ScanFault::NoColumn { name } => format!(in alloc; "no column {}", name.as_str()),
        ScanFault::Damaged { name } => format!(in alloc; "damaged {}", name.as_str()),
        ScanFault::DiskFault => String::from_str(alloc, "disk fault"),
        _ => String::from_str(alloc, "another fault"),
    }
}

/// What a scan of the table answers.
fn told(
    alloc: Global,
    disk: &mut MemDisk,
    view: &View<MemFile>,
    select: Select,
) -> Result<String, NoMemory>
    requires { HasViewIds view.now }
{
    let txn = txn(alloc)?;
    let table = TableName {
        schema: Words::of(alloc, "main")?,
        table: Words::of(alloc, "t")?,
    };
    let named = [Words::of(alloc, select.column)?];
    let names = if select.column == "*" {
        None
    } else {
        Some(named.as_slice())
    };
    let test = test_of(alloc, select.chosen)?;
    match scan(alloc, disk, view, &txn, &table, test.as_ref(), names) {
        Ok(scan) => scan_text(alloc, &scan),
        Err(why) => fault_text(alloc, &why),
    }
}

/// Whether a SELECT from these files is answered so.
fn is_told(
    alloc: Global,
    disk: &mut MemDisk,
    one: MemFile,
    two: MemFile,
    select: Select,
) -> Result<bool, NoMemory> {
    let view = view_of(alloc, table_of(alloc, one, two)?)?;
    let gone = Words::of(alloc, select.gone)?;
    if !select.gone.is_empty() && disk.remove(&gone).is_err() {
        return Ok(false);
    }
    Ok(told(alloc, disk, &view, select)?.as_str() == select.told)
}

fn answers(alloc: Global, select: Select) -> Result<bool, NoMemory> {
    let calls = vec![in alloc; select.fails]?;
    let mut disk = MemDisk::new(alloc, FailList { calls, from: None });
    let one = laid(alloc, &mut disk, "one", select.cut)?;
    let two = laid(alloc, &mut disk, "two", select.cut)?;
    match (one, two) {
        (Some(one), Some(two)) => is_told(alloc, &mut disk, one, two, select),
        _ => Ok(false),
    }
}

#[test]
fn a_table_is_scanned(rt: HostRuntime) -> Result<(), Fail> {
    for select in SELECTS {
        let told = select.told;
        assert_eq!(rt; answers(rt.alloc(), select)?, true, "{told}");
    }
    Ok(())
}
