use lake_types::{CellValues, ColType, Column, Op, Pred, Row, Truth, Value, Words};
use pred::{BindNo, Bound, agrees, bind, chooses, test, test_cells};
use sqlite_items::{Boxed, Items};
use std::alloc::{AllocError, Global};
use std::test::Fail;

fn column(alloc: Global, field: u32, name: &str, ty: ColType) -> Result<Column, AllocError> {
    Ok(Column {
        field,
        name: Words::of(alloc, name)?,
        ty,
        initial: Value::Null,
        default_value: Value::Null,
        nulls: true,
    })
}

/// `number` with field id 3, and `word` with field id 1.
fn columns(alloc: Global) -> Result<Vec<Column>, AllocError> {
    let columns = vec![in alloc;
        column(alloc, 3, "number", ColType::Int8)?,
        column(alloc, 1, "word", ColType::Varchar)?,
    ]?;
    Ok(columns)
}

/// A row whose number is this; none lacks the cell.
fn row(alloc: Global, number: Option<i64>) -> Result<Row, AllocError> {
    let mut cells = CellValues::new(alloc);
    if let Some(number) = number {
        cells.push((3, Value::Int(number)))?;
    }
    Ok(Row { id: 0, cells })
}

fn below(alloc: Global, name: &str, number: i64) -> Result<Pred, AllocError> {
    Ok(Pred::Compare {
        name: Words::of(alloc, name)?,
        op: Op::Lt,
        value: Value::Int(number),
    })
}

/// Below 300, which no cell of a column of bytes passes, and not below 5.
fn from_5_to_300(alloc: Global) -> Result<Pred, AllocError> {
    let mut parts = Items::new(alloc);
    parts.push(below(alloc, "number", 300)?)?;
    parts.push(Pred::Not(Boxed::new(alloc, below(alloc, "number", 5)?)?))?;
    Ok(Pred::And(parts))
}

fn truth_at(alloc: Global, bound: &Bound, number: Option<i64>) -> Result<Truth, AllocError> {
    Ok(test(bound, &row(alloc, number)?))
}

#[test]
fn a_bound_test_is_tried_on_rows(rt: HostRuntime) -> Result<(), Fail> {
    let alloc = rt.alloc();
    let bound = bind(alloc, &from_5_to_300(alloc)?, columns(alloc)?.as_slice())?;
    let bound = bound.copy(alloc)?;
    assert_eq!(rt; truth_at(alloc, &bound, Some(7))?, Truth::True);
    assert_eq!(rt; truth_at(alloc, &bound, Some(4))?, Truth::False);
    assert_eq!(rt; truth_at(alloc, &bound, None)?, Truth::Unknown);
    Ok(())
}

#[test]
fn a_row_is_chosen_where_its_test_is_true(rt: HostRuntime) -> Result<(), Fail> {
    let alloc = rt.alloc();
    let bound = bind(alloc, &from_5_to_300(alloc)?, columns(alloc)?.as_slice())?;
    let lacking = row(alloc, None)?;
    assert!(rt; chooses(Some(&bound), &row(alloc, Some(7))?));
    assert!(rt; !chooses(Some(&bound), &lacking));
    assert!(rt; chooses(None, &lacking));
    assert_eq!(rt; test_cells(&bound, &lacking.cells), Truth::Unknown);
    Ok(())
}

fn lacks_column(bound: &Result<Bound, BindNo>, named: &str) -> bool {
    match bound {
        Err(BindNo::NoColumn { name }) => name.as_str() == named,
        _ => false,
    }
}

fn has_wrong_type(bound: &Result<Bound, BindNo>, named: &str) -> bool {
    match bound {
        Err(BindNo::WrongType { name }) => name.as_str() == named,
        _ => false,
    }
}

#[test]
fn the_first_fault_is_told(rt: HostRuntime) -> Result<(), Fail> {
    let alloc = rt.alloc();
    let mut parts = Items::new(alloc);
    parts.push(below(alloc, "word", 5)?)?;
    parts.push(below(alloc, "weight", 5)?)?;
    let test = Pred::Or(parts);
    assert!(rt; has_wrong_type(&bind(alloc, &test, columns(alloc)?.as_slice()), "word"));
    assert!(rt; lacks_column(&bind(alloc, &test, &[]), "word"));
    assert!(rt; agrees(&Value::Null, ColType::Date));
    Ok(())
}
