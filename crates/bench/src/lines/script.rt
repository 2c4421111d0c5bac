//! A script of INSERT lines.

use std::alloc::{AllocError, Global};
use stmt_text::read_line;
use stmt_tokens::cut_of;

/// Lines of as many rows, one behind the other, and where each ends.
#[derive(Drop)]
pub struct Script {
    pub bytes: String,
    pub ends: Vec<usize>,
}

/// Adds the row of a number. That of 35, behind the first of its line, is `, (35, 'text of row 35', DATE '2024-01-08')`.
fn add_row(alloc: Global, text: &mut String, number: u64, first: bool) -> Result<(), AllocError> {
    let sep = if first { "" } else { ", " };
    let day = 1 + number % 28;
    let row = format!(in alloc;
        "{sep}({number}, 'text of row {number}', DATE '2024-01-{day:02}')"
    )?;
    text.push_str(row.as_str())?;
    Ok(())
}

fn add_line(alloc: Global, text: &mut String, line: u32, rows: u32) -> Result<(), AllocError> {
    text.push_str("1 INSERT INTO t VALUES ")?;
    for row in 0..rows {
        let number = u64::from(line) * u64::from(rows) + u64::from(row);
        add_row(alloc, text, number, row == 0)?;
    }
    Ok(())
}

impl Script {
    pub fn new(alloc: Global, lines: u32, rows: u32) -> Result<Script, AllocError> {
        let mut bytes = String::new(alloc);
        let mut ends = Vec::new(alloc);
        for line in 0..lines {
            add_line(alloc, &mut bytes, line, rows)?;
            ends.push(bytes.as_str().len())?;
        }
        Ok(Script { bytes, ends })
    }

    pub fn len(&self) -> usize {
        self.ends.len()
    }

    fn end_of(&self, at: usize) -> usize {
        match self.ends.get(at) {
            Some(end) => *end,
            None => 0,
        }
    }

    /// The line at this place.
    pub fn line(&self, at: usize) -> &[u8] {
        let from = if at == 0 { 0 } else { self.end_of(at - 1) };
        let bytes = self.bytes.as_str().as_bytes();
        let front = bytes.split_at(self.end_of(at).min(bytes.len())).0;
        front.split_at(from.min(front.len())).1
    }
}

/// How many lines say something.
pub fn count_said(alloc: Global, script: &Script) -> usize {
    let mut said = 0usize;
    for at in 0..script.len() {
        if read_line(alloc, script.line(at)).is_ok() {
            said = said.saturating_add(1);
        }
    }
    said
}

/// How many tokens all lines have.
pub fn count_tokens(alloc: Global, script: &Script) -> Result<usize, AllocError> {
    let mut tokens = 0usize;
    for at in 0..script.len() {
        tokens = tokens.saturating_add(cut_of(alloc, script.line(at))?.tokens.len());
    }
    Ok(tokens)
}
