//! Spans with names of eight bytes, in groups of about ten that follow one another.

use crate::times::mixed;
use cat_spans::{Group, Span};
use std::alloc::{AllocError, Global};

/// The names of so many groups, one after another.
pub fn names(alloc: Global, groups: u64) -> Result<Vec<u8>, AllocError> {
    let mut names = Vec::new(alloc);
    for group in 0..groups {
        names.extend_from_slice(&mixed(group).to_be_bytes())?;
    }
    Ok(names)
}

/// Ten spans of each name, each of which ends where the next begins, and one more of the last name that lies over all
/// numbers up to `last_end`.
pub fn spans(alloc: Global, names: &[u8], last_end: u64) -> Result<Vec<Span<'_>>, AllocError> {
    let mut spans = Vec::new(alloc);
    for begin in 1..11 {
        for name in names.chunks(8) {
            let group = Group {
                first: 0,
                second: 0,
                text: name,
            };
            spans.push(Span::new(group, begin, Some(begin + 1)))?;
        }
    }
    let group = Group {
        first: 0,
        second: 0,
        text: names.rchunks(8).next().unwrap_or(&[]),
    };
    spans.push(Span::new(group, 0, Some(last_end)))?;
    Ok(spans)
}
