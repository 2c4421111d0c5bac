use lake_types::{
    BadValue, Blob, Cell, CellValues, ColType, Column, Copied, Item, Listed, Op, Pred, Row, Stmt,
    TableName, Truth, Value, Words, chooses, literal_of, promotes, test_row, text_of, value_of,
};
use sqlite_items::{Boxed, Items};
use std::alloc::{AllocError, Global};
use std::test::Fail;

fn column(alloc: Global, field: u32, name: &str) -> Result<Column, AllocError> {
    Ok(Column {
        field,
        name: Words::of(alloc, name)?,
        ty: ColType::Int64,
        initial: Value::Null,
        default_value: Value::Int(4),
        nulls: true,
    })
}

fn compare(alloc: Global, name: &str, op: Op, number: i64) -> Result<Pred, AllocError> {
    Ok(Pred::Compare {
        name: Words::of(alloc, name)?,
        op,
        value: Value::Int(number),
    })
}

fn both(alloc: Global, one: Pred, other: Pred) -> Result<Items<Pred>, AllocError> {
    let mut parts = Items::new(alloc);
    parts.push(one)?;
    parts.push(other)?;
    Ok(parts)
}

/// `NOT (a < 5) AND (b = 1 OR b IS NULL)`
fn nested(alloc: Global) -> Result<Pred, AllocError> {
    let low = compare(alloc, "a", Op::Lt, 5)?;
    let one = compare(alloc, "b", Op::Eq, 1)?;
    let null = Pred::IsNull {
        name: Words::of(alloc, "b")?,
    };
    Ok(Pred::And(both(
        alloc,
        Pred::Not(Boxed::new(alloc, low)?),
        Pred::Or(both(alloc, one, null)?),
    )?))
}

#[test]
fn tests_of_a_row(rt: HostRuntime) -> Result<(), Fail> {
    let alloc = rt.alloc();
    let columns = vec![in alloc; column(alloc, 1, "a")?, column(alloc, 2, "b")?]?;
    let cells = vec![in alloc; (1, Value::Int(5)), (2, Value::Null)]?;
    let cases = vec![in alloc;
        (compare(alloc, "a", Op::Ge, 5)?, Truth::True),
        (compare(alloc, "a", Op::Ne, 5)?, Truth::False),
        (compare(alloc, "b", Op::Eq, 1)?, Truth::Unknown),
        (compare(alloc, "c", Op::Eq, 1)?, Truth::Unknown),
        (nested(alloc)?, Truth::True),
    ]?;
    for (test, truth) in cases.iter() {
        assert_eq!(rt;
            test_row(test, columns.as_slice(), cells.as_slice()),
            *truth
        );
        let is_chosen = chooses(Some(test), columns.as_slice(), cells.as_slice());
        assert_eq!(rt; is_chosen, *truth == Truth::True);
    }
    Ok(())
}

#[test]
fn copies(rt: HostRuntime) -> Result<(), Fail> {
    let alloc = rt.alloc();
    let table = TableName {
        schema: Words::of(alloc, "main")?,
        table: Words::of(alloc, "t")?,
    };
    let items = vec![in alloc;
        Item::RowId,
        Item::Column {
            name: Words::of(alloc, "a")?
        },
    ]?;
    let select = Stmt::Select {
        table,
        items: Listed::from_vec(items),
        pred: Some(nested(alloc)?),
    };
    assert_eq!(rt;
        format!(in alloc; "{:?}", select.copy(alloc)?)?,
        format!(in alloc; "{select:?}")?
    );
    let bytes = Value::Bytes(Blob::of(alloc, b"\x0a")?);
    let cells: CellValues = Listed::from_vec(vec![in alloc; (1, bytes), (2, Value::Date(19782))]?);
    let row = Row { id: 7, cells };
    assert_eq!(rt;
        format!(in alloc; "{:?}", row.copy(alloc)?)?,
        format!(in alloc; "{row:?}")?
    );
    Ok(())
}

fn is_text_of(alloc: Global, ty: ColType, text: &str, shown: &str) -> bool {
    let Ok(value) = value_of(alloc, ty, text) else {
        return false;
    };
    let Ok(found) = format!(in alloc; "{value:?}") else {
        return false;
    };
    found.as_str() == shown
}

#[test]
fn texts_that_are_read(rt: HostRuntime) -> Result<(), Fail> {
    let alloc = rt.alloc();
    let cases = [
        (ColType::Bool, "true", "Bool(true)"),
        (ColType::Int8, "-128", "Int(-128)"),
        (ColType::Int8, "127", "Int(127)"),
        (ColType::Int16, "-32768", "Int(-32768)"),
        (ColType::Int16, "32767", "Int(32767)"),
        (ColType::Int32, "-2147483648", "Int(-2147483648)"),
        (ColType::Int32, "2147483647", "Int(2147483647)"),
        (
            ColType::Int64,
            "-9223372036854775808",
            "Int(-9223372036854775808)",
        ),
        (
            ColType::Int64,
            "9223372036854775807",
            "Int(9223372036854775807)",
        ),
        (ColType::Date, "0001-01-01", "Date(-719162)"),
        (ColType::Date, "1969-12-31", "Date(-1)"),
        (ColType::Date, "2000-02-29", "Date(11016)"),
        (ColType::Date, "2024-02-29", "Date(19782)"),
        (ColType::Date, "9999-12-31", "Date(2932896)"),
    ];
    for (ty, text, shown) in cases.iter() {
        assert_eq!(rt; is_text_of(alloc, *ty, text, shown), true);
    }
    Ok(())
}

#[test]
fn texts_that_are_refused(rt: HostRuntime) -> Result<(), Fail> {
    let alloc = rt.alloc();
    let cases = [
        (ColType::Bool, "TRUE"),
        (ColType::Int8, "128"),
        (ColType::Int8, "-129"),
        (ColType::Int64, "9223372036854775808"),
        (ColType::Int64, "007"),
        (ColType::Int64, "+7"),
        (ColType::Int64, "-0"),
        (ColType::Int64, " 7"),
        (ColType::Blob, "0A"),
        (ColType::Blob, "0"),
        (ColType::Date, "2024-2-29"),
        (ColType::Date, "1900-02-29"),
        (ColType::Date, "2023-02-29"),
        (ColType::Date, "0000-12-31"),
    ];
    for (ty, text) in cases.iter() {
        assert_eq!(rt;
            matches!(&value_of(alloc, *ty, text), Err(BadValue::Text)),
            true
        );
    }
    Ok(())
}

#[test]
fn printed_texts(rt: HostRuntime) -> Result<(), Fail> {
    let alloc = rt.alloc();
    let text = Value::Text(Words::of(alloc, "it's\n")?);
    assert_eq!(rt; text_of(alloc, &text)?.as_str(), "it's\n");
    assert_eq!(rt; literal_of(alloc, &text)?.as_str(), "'it''s\n'");
    let bytes = Value::Bytes(Blob::of(alloc, b"\x0a")?);
    assert_eq!(rt; text_of(alloc, &bytes)?.as_str(), "0a");
    assert_eq!(rt; literal_of(alloc, &bytes)?.as_str(), "x'0a'");
    let date = Value::Date(19782);
    assert_eq!(rt; text_of(alloc, &date)?.as_str(), "2024-02-29");
    assert_eq!(rt; literal_of(alloc, &date)?.as_str(), "DATE '2024-02-29'");
    assert_eq!(rt; literal_of(alloc, &Value::Null)?.as_str(), "NULL");
    assert_eq!(rt; literal_of(alloc, &Value::Bool(true))?.as_str(), "true");
    assert_eq!(rt; promotes(ColType::Int8, ColType::Int64), true);
    assert_eq!(rt; promotes(ColType::Int64, ColType::Int64), false);
    Ok(())
}
