ghost use Rattle.std.specs.Prelude.{◌≡◌, ◌≤◌, IfOk, drop, length, map};
ghost use Rattle.cat_spans.specs.Marks.{point_of};
ghost use Rattle.cat_spans.specs.Points.{begin_of, stop_of, are_upto, upto_count, Ascends, IsInOrder};

use crate::span::{Group, Span};
use std::alloc::{AllocError, Global};

/// A number, or the place past all numbers.
#[derive(Clone, Copy, PartialEq, Eq, PartialOrd, Ord)]
pub(crate) enum Place {
    At(u64),
    Past,
}

/// Where a span begins to cover its group, or stops to.
#[derive(Clone, Copy, PartialEq, Eq, PartialOrd, Ord)]
pub(crate) struct Mark<'a> {
    pub group: Group<'a>,
    pub place: Place,
}

fn in_order(mut marks: Vec<Mark<'_>>) -> Vec<Mark<'_>>
    ensures { IsInOrder (map point_of marks.entry.items) (map point_of result.items) }
{
    marks.sort_unstable();
    marks
}

/// Where each span begins, in order.
pub(crate) fn begins<'a>(alloc: Global, spans: &[Span<'a>]) -> Result<Vec<Mark<'a>>, AllocError>
    ensures { IfOk result (λ marks. IsInOrder (map begin_of spans.now) (map point_of marks.items)) }
{
    let marks = spans.iter().map(|span| span.begin_mark()).collect(alloc)?;
    Ok(in_order(marks))
}

/// Where each span stops, in order.
pub(crate) fn stops<'a>(alloc: Global, spans: &[Span<'a>]) -> Result<Vec<Mark<'a>>, AllocError>
    ensures { IfOk result (λ marks. IsInOrder (map stop_of spans.now) (map point_of marks.items)) }
{
    let marks = spans.iter().map(|span| span.stop_mark()).collect(alloc)?;
    Ok(in_order(marks))
}

/// Whether each mark stands up to the one that is by `behind` places further on in the other list.
pub(crate) fn are_upto(marks: &[Mark<'_>], others: &[Mark<'_>], behind: usize) -> bool
    ensures { result ≡ are_upto (map point_of marks.now) (drop behind (map point_of others.now)) }
{
    marks
        .iter()
        .zip(others.iter().skip(behind))
        .all(|(mark, other)| !mark.cmp(other).is_gt())
}

/// How many marks stand up to this one.
pub(crate) fn upto(marks: &[Mark<'_>], mark: &Mark<'_>) -> usize
    requires { Ascends (map point_of marks.now) }
    ensures count { result ≡ upto_count (point_of mark.now) (map point_of marks.now) }
    ensures within { result ≤ length marks.now }
{
    marks.partition_point(|other| !other.cmp(mark).is_gt())
}
