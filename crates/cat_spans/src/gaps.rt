ghost use Rattle.std.specs.Prelude.{List, IfOk, map};
ghost use Rattle.std.specs.Bool.{Decides};
ghost use Rattle.cat_spans.specs.Marks.{point_of};
ghost use Rattle.cat_spans.specs.Points.{AreMarksOf};
ghost use Rattle.cat_spans.specs.Spans.{Extent, HasGap, IsFirstGap};

use crate::marks::{Mark, Place, begins, stops, upto};
use crate::span::Span;
use std::alloc::{AllocError, Global};

/// Whether the span covers a number at which no more spans of its group have begun than stopped.
fn has_gap(span: &Span<'_>, begins: &[Mark<'_>], stops: &[Mark<'_>]) -> bool
    requires { (others : List Extent) × AreMarksOf others (map point_of begins.now) (map point_of stops.now) }
    ensures { (others : List Extent) → AreMarksOf others (map point_of begins.now) (map point_of stops.now) → Decides result (HasGap others span.now) }
{
    let mut number = span.begin();
    while span.covers(number) {
        let mark = span.mark_at(number);
        let stopped = upto(stops, &mark);
        if upto(begins, &mark) <= stopped {
            return true;
        }
        // What covers this number covers each one up to the next stop in the group.
        let next = stops[stopped];
        match next.place {
            Place::At(stop) => number = stop,
            Place::Past => return false,
        }
    }
    false
}

fn first_with_gap(spans: &[Span<'_>], begins: &[Mark<'_>], stops: &[Mark<'_>]) -> Option<usize>
    requires { (others : List Extent) × AreMarksOf others (map point_of begins.now) (map point_of stops.now) }
    ensures { (others : List Extent) → AreMarksOf others (map point_of begins.now) (map point_of stops.now) → IsFirstGap others spans.now result }
{
    for (place, span) in spans.iter().enumerate() {
        if has_gap(span, begins, stops) {
            return Some(place);
        }
    }
    None
}

/// The first span with a number that none of the others of its group covers.
pub fn first_gap(
    alloc: Global,
    spans: &[Span<'_>],
    others: &[Span<'_>],
) -> Result<Option<usize>, AllocError>
    ensures { IfOk result (IsFirstGap others.now spans.now) }
{
    let begins = begins(alloc, others)?;
    let stops = stops(alloc, others)?;
    Ok(first_with_gap(spans, &begins, &stops))
}
