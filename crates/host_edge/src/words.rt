use crate::no::OpenNo;
use std::env;
use std::io::{self, ErrorKind};

fn collected(rt: &HostRuntime) -> io::Result<Vec<String>> {
    match env::args(rt) {
        Ok(words) => Ok(words.collect(rt.alloc())?),
        Err(error) if error.kind() == ErrorKind::InvalidData => Ok(Vec::new(rt.alloc())),
        Err(error) => Err(error),
    }
}

/// The words of the command line, the program's name first. There are none where one of them is no text, so that such a
/// line is refused like one with too many.
pub fn command_words(rt: &HostRuntime) -> Result<Vec<String>, OpenNo> {
    match collected(rt) {
        Ok(words) => Ok(words),
        Err(_) => Err(OpenNo::Memory),
    }
}
