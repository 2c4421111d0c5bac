ghost use Rattle.std.specs.Prelude.{IfOk};
ghost use Rattle.std.specs.Bool.{MatchBool};
ghost use Rattle.cat_spans.specs.Spans.{IsFirstPast, IsWithin, IsExceeded};

use crate::marks::{are_upto, begins, stops};
use crate::span::Span;
use std::alloc::{AllocError, Global};

/// Whether each number is covered by at most `limit` spans of each group.
fn is_within(alloc: Global, limit: usize, spans: &[Span<'_>]) -> Result<bool, AllocError>
    ensures { IfOk result (λ yes. MatchBool yes (IsWithin limit spans.now) (IsExceeded limit spans.now)) }
{
    // A number is covered by as many spans as have begun and not stopped there. So the k-th stop has to come before
    // the begin that is by `limit` places behind it.
    let begins = begins(alloc, spans)?;
    let stops = stops(alloc, spans)?;
    Ok(are_upto(&stops, &begins, limit))
}

/// The first span that is one too many: it covers a number that `limit` earlier spans of its group cover.
pub fn first_past(
    alloc: Global,
    limit: usize,
    spans: &[Span<'_>],
) -> Result<Option<usize>, AllocError>
    ensures { IfOk result (IsFirstPast limit spans.now) }
{
    if is_within(alloc, limit, spans)? {
        return Ok(None);
    }
    // The first `within` spans are within the limit, and the first `past` are not.
    let mut within = 0;
    let mut past = spans.len();
    while past - within > 1 {
        let middle = within + (past - within) / 2;
        if is_within(alloc, limit, &spans[..middle])? {
            within = middle;
        } else {
            past = middle;
        }
    }
    Ok(Some(within))
}
