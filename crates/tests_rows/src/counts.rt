ghost use Rattle.std.specs.Prelude.{◌≡◌, IfOk};
ghost use Rattle.lake_types.specs.declared.value.ColType.TheVariants.{Varchar};

use col_stats::{ColStats, bound_text, count_cells, merge_stats, stats_of};
use lake_types::{CellValues, ColType, Column, NoMemory, Row, RowList, Value, Words};
use std::alloc::Global;
use std::test::Fail;

fn column(alloc: Global) -> Result<Column, NoMemory>
    ensures field { IfOk result (λ column. column.field ≡ 3) }
    ensures ty { IfOk result (λ column. column.ty ≡ Varchar) }
{
    let name = Words::of(alloc, "t")?;
    Ok(Column {
        field: 3,
        name,
        ty: ColType::Varchar,
        initial: Value::Null,
        default_value: Value::Null,
        nulls: true,
    })
}

/// The statistics of one row with this text.
#[tactic(auto, using(crate::proofs::OneLemmas::one_row))]
fn of_row(alloc: Global, text: &str) -> Result<ColStats, NoMemory> {
    let column = column(alloc)?;
    let text = Words::of(alloc, text)?;
    let mut cells = CellValues::new(alloc);
    cells.push((3, Value::Text(text)))?;
    let mut rows = RowList::new(alloc);
    rows.push(Row { id: 0, cells })?;
    stats_of(alloc, &column, &rows)
}

/// The text of the least value among one cell with this text.
#[tactic(auto, using(crate::proofs::OneLemmas::one_cell))]
fn least_text(alloc: Global, text: &str) -> Result<Option<Words>, NoMemory> {
    let column = column(alloc)?;
    let cells = [Value::Text(Words::of(alloc, text)?)];
    let stats = count_cells(alloc, &column, cells.as_slice())?;
    bound_text(alloc, &stats.min)
}

const DIGITS: &str = "0123456789012345678901234567890123456789012345678901234567890123";

const MORE_DIGITS: &str = "01234567890123456789012345678901234567890123456789012345678901234";

#[test]
fn a_text_of_64_bytes_is_the_longest_bound(rt: HostRuntime) -> Result<(), Fail> {
    let alloc = rt.alloc();
    assert!(rt; of_row(alloc, DIGITS)?.max.is_some());
    assert!(rt; of_row(alloc, MORE_DIGITS)?.max.is_none());
    let text = least_text(alloc, DIGITS)?.ok_or("no bound")?;
    assert_eq!(rt; text.as_str(), DIGITS);
    assert!(rt; least_text(alloc, MORE_DIGITS)?.is_none());
    Ok(())
}

fn has(bound: &Option<Value>, number: i64) -> bool {
    matches!(bound, Some(Value::Int(found)) if *found == number)
}

#[test]
fn merged_with_a_side_that_is_all_null(rt: HostRuntime) -> Result<(), Fail> {
    let alloc = rt.alloc();
    let nulls = ColStats {
        field: 3,
        rows: 2,
        nulls: 2,
        min: None,
        max: None,
    };
    let others = ColStats {
        field: 3,
        rows: 5,
        nulls: 1,
        min: Some(Value::Int(-3)),
        max: Some(Value::Int(8)),
    };
    let both = merge_stats(alloc, &nulls, &others)?;
    assert_eq!(rt; both.nulls, 3);
    assert!(rt; has(&both.min, -3) && has(&both.max, 8));
    Ok(())
}
