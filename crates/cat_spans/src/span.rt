ghost use Rattle.std.specs.Prelude.{◌≡◌};

use crate::marks::{Mark, Place};
use std::marker::Model;

/// What spans have in common: two numbers and a text. A text is compared and never copied.
#[derive(Debug, Clone, Copy, PartialEq, Eq, PartialOrd, Ord)]
pub struct Group<'a> {
    pub first: u64,
    pub second: u64,
    pub text: &'a [u8],
}

/// A span covers numbers in its group: from its begin up to before its end, or all from its begin on.
#[derive(Debug, Drop)]
pub struct Span<'a> {
    group: Group<'a>,
    begin: u64,
    end: Option<u64>,
}

impl<'a> Model for Span<'a> {
    ghost use Rattle.cat_spans.specs.Spans.{Extent};
    ghost use Rattle.cat_spans.specs.Groups.{group_of};

    ghost Value = { Extent };

    ghost view = { λ s. record { group = group_of s.group; begin = s.begin; end = s.end } };
}

impl<'a> Span<'a> {
    ghost use Rattle.cat_spans.specs.Groups.{group_of};
    ghost use Rattle.cat_spans.specs.Marks.{point_of};
    ghost use Rattle.cat_spans.specs.Points.{begin_of, point_at, stop_of};
    ghost use Rattle.cat_spans.specs.Spans as spec;

    pub fn new(group: Group<'a>, begin: u64, end: Option<u64>) -> Span<'a>
        ensures { result ≡ record { group = group_of group.entry; begin = begin; end = end } }
    {
        Span { group, begin, end }
    }

    pub(crate) fn begin_mark(&self) -> Mark<'a>
        ensures { point_of result ≡ begin_of self.now }
    {
        Mark {
            group: self.group,
            place: Place::At(self.begin),
        }
    }

    /// The place of a number in its group.
    pub(crate) fn mark_at(&self, number: u64) -> Mark<'a>
        ensures { point_of result ≡ point_at self.now.group number }
    {
        Mark {
            group: self.group,
            place: Place::At(number),
        }
    }

    pub(crate) fn begin(&self) -> u64
        ensures { result ≡ self.now.begin }
    {
        self.begin
    }

    pub(crate) fn covers(&self, number: u64) -> bool
        ensures { result ≡ spec.covers number self.now }
    {
        self.begin <= number
            && match self.end {
                Some(end) => number < end,
                None => true,
            }
    }

    /// A span that doesn't end past its begin stops where it begins.
    pub(crate) fn stop_mark(&self) -> Mark<'a>
        ensures { point_of result ≡ stop_of self.now }
    {
        let place = match self.end {
            Some(end) => Place::At(self.begin.max(end)),
            None => Place::Past,
        };
        Mark {
            group: self.group,
            place,
        }
    }
}
