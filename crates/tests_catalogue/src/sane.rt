use cat_rows::{
    Batch, CatRow, CatRowList, CatRows, ColumnRow, DataFileRow, DeleteFileRow, FileColumnStatsRow,
    InlinedRow, MetadataRow, SchemaRow, SnapshotChangesRow, SnapshotRow, TableRow, TableStatsRow,
    apply_batch, fits_batch,
};
use cat_sane::first_bad_row;
use lake_types::{Blob, Listed, NoMemory, Words};
use std::alloc::Global;
use std::test::Fail;

/// A row that a test adds to a sane catalogue.
#[derive(Clone, Copy)]
enum Further {
    Nothing,
    /// A schema with the name of the only one.
    SecondMain,
    /// A data file without rows.
    EmptyFile,
    /// A delete file of a data file that isn't there.
    LoneDeleteFile,
    /// A data file, and statistics with more NULLs than rows.
    ManyNulls,
    /// A row whose cells can't be read.
    BadCells,
    /// Statistics of a table that isn't there, with a counter past its last value.
    LoneStats,
    /// A row whose cells can't be read, of a table that isn't there.
    LoneInlined,
}

/// What one test changes of a sane catalogue.
#[derive(Clone, Copy)]
struct Plan {
    /// What the entry `layout` says.
    layout: &'static str,
    /// The id of the third snapshot.
    newest: u64,
    /// The counter of schemas and tables.
    next_catalog_id: u64,
    /// Where the only schema ends.
    schema_end: Option<u64>,
    /// The schema of the only table.
    schema: u64,
    /// Where the table's only column ends.
    column_end: Option<u64>,
    /// Where a further row of that column begins.
    second_begin: u64,
    /// What the column's first row says is its type.
    column_type: &'static str,
    /// The table of the row of statistics.
    stats_table: u64,
    /// The rows that it counts.
    stats_rows: u64,
    /// What the third snapshot changed.
    changes: &'static str,
    /// A row that is there besides.
    further: Further,
}

const SANE: Plan = Plan {
    layout: "1",
    newest: 2,
    next_catalog_id: 2,
    schema_end: None,
    schema: 0,
    column_end: Some(2),
    second_begin: 2,
    column_type: "int64",
    stats_table: 1,
    stats_rows: 0,
    changes: "altered_table:1",
    further: Further::Nothing,
};

fn snapshot(id: u64, next_catalog_id: u64) -> CatRow {
    CatRow::Snapshot(SnapshotRow {
        snapshot_id: id,
        snapshot_time: 0,
        next_catalog_id,
        next_file_id: 0,
    })
}

pub fn changes(alloc: Global, id: u64, text: &str) -> Result<CatRow, NoMemory> {
    Ok(CatRow::SnapshotChanges(SnapshotChangesRow {
        snapshot_id: id,
        changes_made: Words::of(alloc, text)?,
    }))
}

fn layout(alloc: Global, plan: Plan) -> Result<CatRow, NoMemory> {
    Ok(CatRow::Metadata(MetadataRow {
        key: Words::of(alloc, "layout")?,
        value: Words::of(alloc, plan.layout)?,
    }))
}

fn schema(alloc: Global, plan: Plan) -> Result<CatRow, NoMemory> {
    Ok(CatRow::Schema(SchemaRow {
        schema_id: 0,
        begin_snapshot: 0,
        end_snapshot: plan.schema_end,
        schema_name: Words::of(alloc, "main")?,
    }))
}

fn table(alloc: Global, plan: Plan) -> Result<CatRow, NoMemory> {
    Ok(CatRow::Table(TableRow {
        table_id: 1,
        begin_snapshot: 1,
        end_snapshot: None,
        schema_id: plan.schema,
        table_name: Words::of(alloc, "t")?,
    }))
}

fn column(
    alloc: Global,
    begin: u64,
    end: Option<u64>,
    column_type: &str,
) -> Result<CatRow, NoMemory> {
    Ok(CatRow::Column(ColumnRow {
        table_id: 1,
        column_id: 1,
        begin_snapshot: begin,
        end_snapshot: end,
        column_order: 0,
        column_name: Words::of(alloc, "a")?,
        column_type: Words::of(alloc, column_type)?,
        initial_default: None,
        default_value: None,
        nulls_allowed: true,
    }))
}

fn stats(plan: Plan) -> CatRow {
    CatRow::TableStats(TableStatsRow {
        table_id: plan.stats_table,
        record_count: plan.stats_rows,
        next_row_id: 1,
        next_field_id: 2,
        file_size_bytes: 0,
    })
}

/// The layout, and three snapshots with their changes texts.
fn add_history(alloc: Global, adds: &mut CatRowList, plan: Plan) -> Result<(), NoMemory> {
    adds.push(layout(alloc, plan)?)?;
    adds.push(snapshot(0, 1))?;
    adds.push(snapshot(1, 2))?;
    adds.push(snapshot(plan.newest, plan.next_catalog_id))?;
    Ok(())
}

fn add_changes(alloc: Global, adds: &mut CatRowList, plan: Plan) -> Result<(), NoMemory> {
    adds.push(changes(alloc, 0, "created_schema:\"main\"")?)?;
    adds.push(changes(alloc, 1, "created_table:\"main\".\"t\"")?)?;
    adds.push(changes(alloc, plan.newest, plan.changes)?)?;
    Ok(())
}

/// A schema, and a table whose column was altered once.
fn add_table(alloc: Global, adds: &mut CatRowList, plan: Plan) -> Result<(), NoMemory> {
    adds.push(schema(alloc, plan)?)?;
    adds.push(table(alloc, plan)?)?;
    adds.push(column(alloc, 1, plan.column_end, plan.column_type)?)?;
    adds.push(column(alloc, plan.second_begin, None, "int64")?)?;
    adds.push(stats(plan))?;
    Ok(())
}

fn second_main(alloc: Global) -> Result<CatRow, NoMemory> {
    Ok(CatRow::Schema(SchemaRow {
        schema_id: 5,
        begin_snapshot: 1,
        end_snapshot: None,
        schema_name: Words::of(alloc, "main")?,
    }))
}

fn data_file(alloc: Global, record_count: u64) -> Result<CatRow, NoMemory> {
    Ok(CatRow::DataFile(DataFileRow {
        data_file_id: 0,
        begin_snapshot: 1,
        end_snapshot: None,
        table_id: 1,
        path: Words::of(alloc, "a.parquet")?,
        record_count,
        file_size_bytes: 0,
        row_id_start: None,
        weight: 1000,
    }))
}

fn delete_file(alloc: Global) -> Result<CatRow, NoMemory> {
    Ok(CatRow::DeleteFile(DeleteFileRow {
        delete_file_id: 1,
        begin_snapshot: 1,
        end_snapshot: None,
        table_id: 1,
        data_file_id: 3,
        path: Words::of(alloc, "b.parquet")?,
        delete_count: 1,
        file_size_bytes: 0,
    }))
}

fn many_nulls() -> CatRow {
    CatRow::FileColumnStats(FileColumnStatsRow {
        data_file_id: 0,
        column_id: 1,
        null_count: 11,
        min_value: None,
        max_value: None,
    })
}

fn bad_cells(alloc: Global, table_id: u64) -> Result<CatRow, NoMemory> {
    Ok(CatRow::Inlined(InlinedRow {
        table_id,
        row_id: 0,
        begin_snapshot: 1,
        end_snapshot: None,
        cells: Blob::of(alloc, b"x")?,
    }))
}

fn lone_stats() -> CatRow {
    CatRow::TableStats(TableStatsRow {
        table_id: 0,
        record_count: 0,
        next_row_id: (1 << 62) + 1,
        next_field_id: 1,
        file_size_bytes: 0,
    })
}

fn add_further(alloc: Global, adds: &mut CatRowList, further: Further) -> Result<(), NoMemory> {
    match further {
        Further::Nothing => {}
        Further::SecondMain => adds.push(second_main(alloc)?)?,
        Further::EmptyFile => adds.push(data_file(alloc, 0)?)?,
        Further::LoneDeleteFile => adds.push(delete_file(alloc)?)?,
        Further::ManyNulls => {
            adds.push(data_file(alloc, 10)?)?;
            adds.push(many_nulls())?;
        }
        Further::BadCells => adds.push(bad_cells(alloc, 1)?)?,
        Further::LoneInlined => adds.push(bad_cells(alloc, 0)?)?,
        Further::LoneStats => adds.push(lone_stats())?,
    }
    Ok(())
}

/// The catalogue of these rows, if they fit one.
pub fn stored(alloc: Global, adds: CatRowList) -> Result<Option<CatRows>, NoMemory> {
    let batch = Batch {
        removes: Listed::new(alloc),
        ends: Listed::new(alloc),
        adds,
    };
    let mut rows = CatRows::empty(alloc);
    if !fits_batch(&rows, &batch) {
        return Ok(None);
    }
    apply_batch(alloc, &mut rows, &batch)?;
    Ok(Some(rows))
}

fn catalogue(alloc: Global, plan: Plan) -> Result<Option<CatRows>, NoMemory> {
    let mut adds = Listed::new(alloc);
    add_history(alloc, &mut adds, plan)?;
    add_changes(alloc, &mut adds, plan)?;
    add_table(alloc, &mut adds, plan)?;
    add_further(alloc, &mut adds, plan.further)?;
    stored(alloc, adds)
}

/// One change of a sane catalogue, and what is told of it.
#[derive(Clone, Copy)]
struct Case {
    plan: Plan,
    rule: u8,
    table: &'static str,
    key: &'static str,
}

/// Whether this is told of a catalogue.
fn is_told(alloc: Global, case: Case) -> Result<bool, NoMemory> {
    let Some(rows) = catalogue(alloc, case.plan)? else {
        return Ok(false);
    };
    match first_bad_row(alloc, &rows)? {
        Some(bad) => Ok(
            bad.rule == case.rule
                && bad.table.as_str() == case.table
                && bad.key.as_str() == case.key,
        ),
        None => Ok(false),
    }
}

/// Whether there is a catalogue, and it breaks no rule.
pub fn is_sane(alloc: Global, stored: Option<CatRows>) -> Result<bool, NoMemory> {
    match stored {
        Some(rows) => Ok(first_bad_row(alloc, &rows)?.is_none()),
        None => Ok(false),
    }
}

/// The rows of a new lake.
fn snapshot_0(alloc: Global) -> Result<Option<CatRows>, NoMemory> {
    let mut adds = Listed::new(alloc);
    adds.push(layout(alloc, SANE)?)?;
    adds.push(snapshot(0, 1))?;
    adds.push(changes(alloc, 0, "created_schema:\"main\"")?)?;
    adds.push(schema(alloc, SANE)?)?;
    stored(alloc, adds)
}

#[test]
fn snapshot_0_breaks_no_rule(rt: HostRuntime) -> Result<(), Fail> {
    let rows = snapshot_0(rt.alloc())?;
    assert_eq!(rt; is_sane(rt.alloc(), rows)?, true);
    Ok(())
}

#[test]
fn a_sane_catalogue_breaks_no_rule(rt: HostRuntime) -> Result<(), Fail> {
    let rows = catalogue(rt.alloc(), SANE)?;
    assert_eq!(rt; is_sane(rt.alloc(), rows)?, true);
    Ok(())
}

#[test]
fn rows_without_a_table_break_no_rule(rt: HostRuntime) -> Result<(), Fail> {
    for further in [Further::LoneStats, Further::LoneInlined] {
        let rows = catalogue(rt.alloc(), Plan { further, ..SANE })?;
        assert_eq!(rt; is_sane(rt.alloc(), rows)?, true);
    }
    Ok(())
}

const CASES: [Case; 17] = [
    Case {
        plan: Plan {
            layout: "2",
            ..SANE
        },
        rule: 1,
        table: "ducklake_metadata",
        key: "layout",
    },
    Case {
        plan: Plan { newest: 3, ..SANE },
        rule: 2,
        table: "ducklake_snapshot",
        key: "2",
    },
    Case {
        plan: Plan {
            changes: "altered_table:01",
            ..SANE
        },
        rule: 2,
        table: "ducklake_snapshot_changes",
        key: "2",
    },
    Case {
        plan: Plan {
            column_end: Some(1),
            ..SANE
        },
        rule: 3,
        table: "ducklake_column",
        key: "1,1,1",
    },
    Case {
        plan: Plan {
            column_end: None,
            ..SANE
        },
        rule: 3,
        table: "ducklake_column",
        key: "1,1,2",
    },
    Case {
        plan: Plan {
            second_begin: 3,
            ..SANE
        },
        rule: 3,
        table: "ducklake_column",
        key: "1,1,3",
    },
    Case {
        plan: Plan {
            further: Further::SecondMain,
            ..SANE
        },
        rule: 4,
        table: "ducklake_schema",
        key: "5",
    },
    Case {
        plan: Plan {
            schema_end: Some(2),
            ..SANE
        },
        rule: 5,
        table: "ducklake_table",
        key: "1",
    },
    Case {
        plan: Plan { schema: 7, ..SANE },
        rule: 5,
        table: "ducklake_schema",
        key: "7",
    },
    Case {
        plan: Plan {
            column_type: "float",
            ..SANE
        },
        rule: 6,
        table: "ducklake_column",
        key: "1,1,1",
    },
    Case {
        plan: Plan {
            further: Further::EmptyFile,
            ..SANE
        },
        rule: 7,
        table: "ducklake_data_file",
        key: "0",
    },
    Case {
        plan: Plan {
            further: Further::LoneDeleteFile,
            ..SANE
        },
        rule: 8,
        table: "ducklake_data_file",
        key: "3",
    },
    Case {
        plan: Plan {
            further: Further::ManyNulls,
            ..SANE
        },
        rule: 9,
        table: "ducklake_file_column_stats",
        key: "0,1",
    },
    Case {
        plan: Plan {
            further: Further::BadCells,
            ..SANE
        },
        rule: 10,
        table: "ducklake_inlined_row",
        key: "1,0,1",
    },
    Case {
        plan: Plan {
            stats_table: 0,
            ..SANE
        },
        rule: 11,
        table: "ducklake_table_stats",
        key: "1",
    },
    Case {
        plan: Plan {
            stats_rows: (1 << 62) + 1,
            ..SANE
        },
        rule: 11,
        table: "ducklake_table_stats",
        key: "1",
    },
    Case {
        plan: Plan {
            next_catalog_id: 1,
            ..SANE
        },
        rule: 12,
        table: "ducklake_table",
        key: "1",
    },
];

#[test]
fn one_change_breaks_one_rule_first(rt: HostRuntime) -> Result<(), Fail> {
    for case in CASES {
        assert_eq!(rt; is_told(rt.alloc(), case)?, true);
    }
    Ok(())
}
