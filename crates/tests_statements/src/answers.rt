//! What is answered of a line, as a yes or a no.

ghost use Rattle.stmt_text.specs.Printable.{IsPrintable};

use lake_types::Stmt;
use std::alloc::Global;
use stmt_text::{LineNo, print, read_line};

fn prints(alloc: Global, said: &(u8, Stmt), text: &str) -> bool
    requires { IsPrintable said.now.0 said.now.1 }
{
    match print(alloc, said.0, &said.1) {
        Ok(printed) => printed.as_str() == text,
        Err(_) => false,
    }
}

/// Whether what a line says is printed so.
pub fn is_printed(alloc: Global, line: &[u8], text: &str) -> bool {
    match read_line(alloc, line) {
        Ok(said) => prints(alloc, &said, text),
        Err(_) => false,
    }
}

pub fn is_read(alloc: Global, line: &[u8]) -> bool {
    read_line(alloc, line).is_ok()
}

/// Whether a line is wrong at this place.
pub fn is_fault(alloc: Global, line: &[u8], session: u8, at: u64) -> bool {
    match read_line(alloc, line) {
        Err(found) => found == LineNo::Syntax { session, at },
        Ok(_) => false,
    }
}

pub fn is_too_long(alloc: Global, line: &[u8], session: u8) -> bool {
    match read_line(alloc, line) {
        Err(found) => found == LineNo::TooLong { session },
        Ok(_) => false,
    }
}
