use cat_spans::{Group, Span, first_gap, first_past};
use std::alloc::{AllocError, Global};
use std::test::Fail;

/// A span of a group with this text.
type Row = (&'static str, u64, Option<u64>);

fn spans(alloc: Global, rows: &[Row]) -> Result<Vec<Span<'static>>, AllocError> {
    let mut spans = Vec::new(alloc);
    for (text, begin, end) in rows {
        let group = Group {
            first: 0,
            second: 0,
            text: text.as_bytes(),
        };
        spans.push(Span::new(group, *begin, *end))?;
    }
    Ok(spans)
}

fn answers(
    alloc: Global,
    limit: usize,
    rows: &[Row],
    wanted: Option<usize>,
) -> Result<bool, AllocError> {
    Ok(first_past(alloc, limit, &spans(alloc, rows)?)? == wanted)
}

#[test]
fn spans_that_meet_in_one_number_or_not(rt: HostRuntime) -> Result<(), Fail> {
    let alloc = rt.alloc();
    let apart: &[Row] = &[("a", 1, Some(5)), ("a", 5, None), ("b", 1, None)];
    let meet: &[Row] = &[
        ("a", 5, None),
        ("b", 1, None),
        ("a", 1, Some(6)),
        ("a", 2, None),
    ];
    let nothing: &[Row] = &[("a", 1, None), ("a", 5, Some(5)), ("a", 6, Some(2))];
    assert_eq!(rt; answers(alloc, 1, apart, None)?, true);
    assert_eq!(rt; answers(alloc, 1, meet, Some(2))?, true);
    assert_eq!(rt; answers(alloc, 1, nothing, None)?, true);
    assert_eq!(rt; answers(alloc, 1, &[], None)?, true);
    Ok(())
}

#[test]
fn as_many_as_may(rt: HostRuntime) -> Result<(), Fail> {
    let alloc = rt.alloc();
    let chain: &[Row] = &[("", 1, Some(4)), ("", 3, Some(8)), ("", 7, Some(9))];
    let pile: &[Row] = &[("", 1, None), ("", 2, None), ("", 3, None), ("", 4, None)];
    assert_eq!(rt; answers(alloc, 0, chain, Some(0))?, true);
    assert_eq!(rt; answers(alloc, 1, chain, Some(1))?, true);
    assert_eq!(rt; answers(alloc, 2, chain, None)?, true);
    assert_eq!(rt; answers(alloc, 2, pile, Some(2))?, true);
    assert_eq!(rt; answers(alloc, 3, pile, Some(3))?, true);
    assert_eq!(rt; answers(alloc, 4, pile, None)?, true);
    Ok(())
}

fn gaps(
    alloc: Global,
    rows: &[Row],
    others: &[Row],
    wanted: Option<usize>,
) -> Result<bool, AllocError> {
    Ok(first_gap(alloc, &spans(alloc, rows)?, &spans(alloc, others)?)? == wanted)
}

#[test]
fn numbers_that_nothing_covers(rt: HostRuntime) -> Result<(), Fail> {
    let alloc = rt.alloc();
    let rows: &[Row] = &[("a", 3, Some(3)), ("a", 2, Some(9)), ("a", 1, Some(9))];
    let chain: &[Row] = &[("a", 5, Some(9)), ("b", 1, None), ("a", 2, Some(5))];
    assert_eq!(rt; gaps(alloc, rows, chain, Some(2))?, true);
    assert_eq!(rt; gaps(alloc, &[("a", 2, Some(10))], chain, Some(0))?, true);
    assert_eq!(rt;
        gaps(alloc, &[("b", 7, None), ("a", 2, Some(9))], chain, None)?,
        true
    );
    assert_eq!(rt;
        gaps(
            alloc,
            &[("a", 2, Some(9))],
            &[("a", 2, Some(5)), ("a", 6, None)],
            Some(0)
        )?,
        true
    );
    assert_eq!(rt; gaps(alloc, rows, &[], Some(1))?, true);
    Ok(())
}
