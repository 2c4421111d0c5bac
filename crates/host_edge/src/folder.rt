use crate::no::{OpenNo, folder_no};
use crate::path::is_short;
use std::fs::{self, DirEntry, File};
use std::io::{self, ErrorKind};

/// The folder in which a path lies.
fn parent_of(path: &str) -> &str {
    match path.rsplit_once('/') {
        Some(("", _)) => "/",
        Some((parent, _)) => parent,
        None => ".",
    }
}

/// The open folder, which is made where it is missing. Its own name is synced too, since no file in it would outlast a
/// crash without that.
fn made(rt: &HostRuntime, folder: &str) -> io::Result<File> {
    if !fs::exists(rt, folder)? {
        fs::create_dir(rt, folder)?;
    }
    if !fs::metadata(rt, folder)?.is_dir() {
        return Err(io::Error::from(ErrorKind::NotADirectory));
    }
    File::open(rt, parent_of(folder))?.sync_all()?;
    File::open(rt, folder)
}

/// Opens a folder with a path that leaves room for a name.
pub fn open_folder(rt: &HostRuntime, folder: &str) -> Result<File, OpenNo> {
    if !is_short(folder) {
        return Err(OpenNo::Folder);
    }
    made(rt, folder).map_err(folder_no)
}

/// The answer, or none where it is that something is missing.
pub fn found<T: Drop>(answer: io::Result<T>) -> io::Result<Option<T>> {
    match answer {
        Ok(value) => Ok(Some(value)),
        Err(error) if error.kind() == ErrorKind::NotFound => Ok(None),
        Err(error) => Err(error),
    }
}

/// An entry of a folder, unless its name is no text. Such a name is none of ours.
pub fn named(entry: io::Result<DirEntry>) -> io::Result<Option<DirEntry>> {
    match entry {
        Ok(entry) => Ok(Some(entry)),
        Err(error) if error.kind() == ErrorKind::InvalidFilename => Ok(None),
        Err(error) => Err(error),
    }
}

/// Whether an entry is a regular file, and still there.
pub fn is_regular(entry: &DirEntry) -> io::Result<bool> {
    match found(entry.file_type())? {
        Some(kind) => Ok(kind.is_file()),
        None => Ok(false),
    }
}
